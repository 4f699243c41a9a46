// The check's answer.
ghost use Rattle.std.specs.Prelude.{◌≡◌, length};
ghost use Rattle.spec_sheet.specs.sheet.Sheet.{sheet_of, work_after};
ghost use Rattle.sheet.specs.Answer.{answer_of};

use crate::faults::fault;
use crate::totals::total_fault;
use refusals::Refusal;
use sheet_frames::{frames, rate_den, rate_num, timescale};
use sheet_permutation::once_fault;
use spec_sheet::sheet::Head;

// The whole check. The work bytes that are lent are n / 8, rounded up, or more: those needed end zero.
pub fn check(s: &[u8], work: &mut [u8]) -> Result<Head, Refusal>
    ensures value { answer_of result ≡ sheet_of s.now (length work.old) }
    ensures work_after { work.new ≡ work_after s.now work.old }
{
    fault(s)?;
    let n = frames(s);
    once_fault(s, n, work)?;
    total_fault(s, n)?;
    Ok(Head {
        timescale: timescale(s),
        frames: n,
        rate_num: rate_num(s),
        rate_den: rate_den(s),
    })
}
