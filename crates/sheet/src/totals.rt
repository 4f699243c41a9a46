// The durations of a sheet together.
ghost use Rattle.std.specs.Prelude.{◌≡◌, ◌≤◌};
ghost use Rattle.refusals.specs.Numbers.{told};
ghost use Rattle.spec_base.specs.base.Limits.{most_frames};
ghost use Rattle.spec_sheet.specs.sheet.Sheet.{total_fault};

use order::DecodeIdx;
use refusals::Refusal;

// Adds up sample by sample, and no sample before it is known that the sum stays within the limit.
fn sum_fault(s: &[u8], n: u32) -> Result<(), Refusal>
    ensures { told result ≡ total_fault s.now n }
{
    let mut left = base::MOST_TICKS;
    for i in 0..n {
        let d = sheet_frames::duration_at(s, DecodeIdx(i));
        if left < d {
            return Err(Refusal::TooManyTicks);
        }
        left -= d;
    }
    Ok(())
}

// Whether the durations of n samples together stay within 2^53. Those of the first layout, of 32 bits each, always do.
pub fn total_fault(s: &[u8], n: u32) -> Result<(), Refusal>
    requires { n ≤ most_frames }
    ensures { told result ≡ total_fault s.now n }
{
    if sheet_frames::long(s) {
        sum_fault(s, n)
    } else {
        Ok(())
    }
}
