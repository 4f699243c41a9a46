// Total parts of slices: what lies past the end is a value that is told, or empty.
ghost use Rattle.std.specs.Prelude.{◌≡◌, get_or, take, drop};
ghost use Rattle.spec_base.specs.base.Part.{last};

// The element at `k`, or `other` past the end.
pub fn get_or<T: Copy>(s: &[T], k: usize, other: T) -> T
    ensures { result ≡ get_or s.now k other }
{
    if k < s.len() { s[k] } else { other }
}

// The slice from `a` on, empty where `a` is past the end.
pub fn rest<T>(s: &[T], a: usize) -> &[T]
    ensures { result.now ≡ drop a s.now }
{
    if a <= s.len() { &s[a..] } else { &s[s.len()..] }
}

// The first `n` elements of the slice, or all where it is shorter.
pub fn front<T>(s: &[T], n: usize) -> &[T]
    ensures { result.now ≡ take n s.now }
{
    if n <= s.len() { &s[..n] } else { s }
}

// The last `k` bytes of the slice, or all where it is shorter.
pub fn last_part(s: &[u8], k: usize) -> &[u8]
    ensures { result.now ≡ last s.now k }
{
    rest(s, s.len().saturating_sub(k))
}
