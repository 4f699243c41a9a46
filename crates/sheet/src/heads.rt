// The head, in block 0.
ghost use Rattle.std.specs.Prelude.{◌≡◌};
ghost use Rattle.refusals.specs.Numbers.{told};
ghost use Rattle.spec_base.specs.base.Refusal.{first_of};
ghost use Rattle.spec_sheet.specs.sheet.Sheet.{spare_fault, timescale_in, head_fault};

use refusals::Refusal;
use sheet_frames::{frames, long, timescale};

// Words 6 to 126 are zero.
fn spare_fault(s: &[u8]) -> Result<(), Refusal>
    ensures { told result ≡ first_of (spare_fault s.now 13) 6 121 }
{
    for i in 6..127 {
        if checked_blocks::word(s, i) != 0 {
            return Err(Refusal::SheetHead);
        }
    }
    Ok(())
}

// The largest timescale of a layout.
fn timescale_in(long: bool) -> u32
    ensures { result ≡ timescale_in long }
{
    if long {
        base::MOST_TIMESCALE
    } else {
        base::MOST_SHEET_TIMESCALE
    }
}

// The head's fault.
pub fn head_fault(s: &[u8]) -> Result<(), Refusal>
    ensures { told result ≡ head_fault s.now }
{
    let layout = checked_blocks::word(s, 5);
    if 1 < layout {
        return Err(Refusal::SheetHead);
    }
    let t = timescale(s);
    if t == 0 || timescale_in(long(s)) < t {
        return Err(Refusal::SheetHead);
    }
    let n = frames(s);
    if n == 0 || base::MOST_FRAMES < n {
        return Err(Refusal::SheetHead);
    }
    spare_fault(s)
}
