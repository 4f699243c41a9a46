// Bytes that are all zero.
ghost use Rattle.std.specs.Prelude.{◌≡◌};
ghost use Rattle.spec_parked_blocks.specs.parked_blocks.Sealed.{all_zero};

// Whether all bytes are zero: the largest is.
pub fn all_zero(s: &[u8]) -> bool
    ensures { result ≡ all_zero s.now }
{
    let mut most: u8 = 0;
    for b in s {
        most = most.max(*b);
    }
    most == 0
}
