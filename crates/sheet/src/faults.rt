// The first fault of a sheet.
ghost use Rattle.std.specs.Prelude.{◌≡◌};
ghost use Rattle.refusals.specs.Numbers.{told};
ghost use Rattle.spec_sheet.specs.sheet.Sheet.{sheet_fault};

use crate::heads::head_fault;
use crate::records::{blocks_fault, check_fault, record_blocks};
use refusals::Refusal;
use sheet_frames::frames;

// The first fault of the sheet.
pub fn fault(s: &[u8]) -> Result<(), Refusal>
    ensures { told result ≡ sheet_fault s.now }
{
    let len = s.len();
    if len == 0 || len % 512 != 0 {
        return Err(Refusal::SheetLength);
    }
    check_fault(s, 0)?;
    head_fault(s)?;
    let n = frames(s);
    if len != 512 * (1 + record_blocks(sheet_frames::long(s), n)) {
        return Err(Refusal::SheetLength);
    }
    blocks_fault(s, n)
}
