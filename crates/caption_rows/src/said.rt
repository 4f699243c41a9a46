// What a line or a block gives: a fault, nothing, or a caption.
ghost use Rattle.std.specs.Prelude.{◌≡◌};
ghost use Rattle.refusals.specs.Numbers.{number_of};
ghost use Rattle.spec_rows.specs.caption_rows.Said.{at_fault};

use refusals::Refusal;
use spec_rows::caption_rows::Said;

// No caption, and no fault.
pub fn nothing() -> Said
    ensures { result ≡ at_fault 0 0 }
{
    Said {
        number: 0,
        caption: false,
        line: 0,
        warned: 0,
        start: 0,
        stop: 0,
        at: 0,
        size: 0,
    }
}

// No caption, but a fault on a line.
pub(crate) fn without(why: Refusal, line: u64) -> Said
    ensures { result ≡ at_fault (number_of why) line }
{
    Said {
        number: u32::from(why),
        line,
        ..nothing()
    }
}
