// The decode indices of a sheet's records, each met once.
ghost use Rattle.std.specs.Prelude.{◌≡◌, ◌*◌, ◌^◌, ◌≤◌, ◌<◌, length, replicate};
ghost use Rattle.refusals.specs.Numbers.{told};
ghost use Rattle.spec_base.specs.base.Refusal.{first_of};
ghost use Rattle.spec_sheet.specs.sheet_frames.Frames.{long_of};
ghost use Rattle.spec_sheet.specs.sheet_permutation.Once.{repeat_fault, work_bytes, once_number, work_once};

use crate::bits::set_bit;
use order::DisplayIdx;
use refusals::Refusal;

// How many work bytes n frames need.
fn work_bytes(n: u32) -> usize
    ensures { (result ≡ work_bytes n) × (result < 2 ^ 30) }
{
    (n as usize).div_ceil(8)
}

// One of n records whose decode index is not below n, or was met before, is a refusal. The bits are clear at first.
// The layout is told as a constant.
fn pass<const LONG: bool>(s: &[u8], n: u32, bits: &mut [u8]) -> Result<(), Refusal>
    requires { (LONG ≡ long_of s.now) × (n ≤ 8 * length bits.old) × (bits.old ≡ replicate (length bits.old) 0) }
    ensures { told result ≡ first_of (repeat_fault s.now n) 0 n }
{
    for i in 0..n {
        let d = sheet_frames::decode_by(s, LONG, DisplayIdx(i));
        if n <= d.0 || set_bit(bits, d) {
            return Err(Refusal::SampleNamedTwice);
        }
    }
    Ok(())
}

// The same by the sheet's layout.
fn pass_by_layout(s: &[u8], n: u32, bits: &mut [u8]) -> Result<(), Refusal>
    requires { (n ≤ 8 * length bits.old) × (bits.old ≡ replicate (length bits.old) 0) }
    ensures { told result ≡ first_of (repeat_fault s.now n) 0 n }
{
    if sheet_frames::long(s) {
        pass::<true>(s, n, bits)
    } else {
        pass::<false>(s, n, bits)
    }
}

// The pass over bytes of any value, which end zero.
fn clean_pass(s: &[u8], n: u32, bits: &mut [u8]) -> Result<(), Refusal>
    requires { n ≤ 8 * length bits.old }
    ensures { (told result ≡ first_of (repeat_fault s.now n) 0 n) × (bits.new ≡ replicate (length bits.old) 0) }
{
    bits.fill(0);
    let f = pass_by_layout(s, n, bits);
    bits.fill(0);
    f
}

// Whether the first n records of a sheet name each number below n. Too few work bytes are a bad argument.
pub fn once_fault(s: &[u8], n: u32, work: &mut [u8]) -> Result<(), Refusal>
    ensures value { told result ≡ once_number s.now n (length work.old) }
    ensures work_after { work.new ≡ work_once n work.old }
{
    let need = work_bytes(n);
    if work.len() < need {
        return Err(Refusal::BadArgument);
    }
    clean_pass(s, n, &mut work[..need])
}
