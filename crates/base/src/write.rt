// Writers that lend the tail of an output on: the whole piece, or nothing and the place unchanged.
ghost use Rattle.std.specs.Prelude.{◌≡◌};
ghost use Rattle.spec_base.specs.base.Put.{placed, placed_length, placed_at, place_after};

// Writes `s` to the start of `out`, the rest of the output, and answers its length; where it does not fit, nothing and 0.
pub fn put<T: Copy>(out: &mut [T], s: &[T]) -> usize
    ensures { (result ≡ placed_length s.now out.old) × (out.new ≡ placed s.now out.old) }
{
    let n = s.len();
    if out.len() < n {
        return 0;
    }
    for (i, x) in s.iter().enumerate() {
        out[i] = *x;
    }
    n
}

// Writes `s` from the place `at` on, and answers the place after it; where it does not fit, nothing and `at`.
pub fn put_at<T: Copy>(out: &mut [T], at: usize, s: &[T]) -> usize
    ensures { (result ≡ place_after at s.now out.old) × (out.new ≡ placed_at at s.now out.old) }
{
    if out.len() < at {
        return at;
    }
    at + put(&mut out[at..], s)
}
