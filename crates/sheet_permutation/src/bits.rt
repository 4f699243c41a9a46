// Bits of lent bytes.
ghost use Rattle.std.specs.Prelude.{◌≡◌, ◌*◌, ◌<◌, length};
ghost use Rattle.spec_sheet.specs.sheet_permutation.Once.{bit_of, with_bit};

use order::DecodeIdx;

// Sets the bit of a decode index, and answers whether it was set before.
pub fn set_bit(bits: &mut [u8], index: DecodeIdx) -> bool
    requires { index.0 < 8 * length bits.old }
    ensures { (result ≡ bit_of bits.old index.0) × (bits.new ≡ with_bit bits.old index.0) }
{
    let d = index.0 as usize;
    let at = d / 8;
    let k = (d % 8) as u8;
    let old = bits[at];
    if (old >> k) % 2 == 1 {
        return true;
    }
    bits[at] = old + (1 << k);
    false
}
