// What a line or a block tells.
ghost use Rattle.std.specs.Prelude.{◌≡◌};
ghost use Rattle.spec_caption.specs.caption_fate.Fates.{fate_for};
ghost use Rattle.spec_caption.specs.caption_fate.Emit.{decided};
ghost use Rattle.spec_caption.specs.caption_fate.Told.{counted_of, refused_with};

use spec_caption::caption_fate::{Counted, Retimed, Told};

// A refusal: nothing is written.
pub fn refused(number: u32) -> Told
    ensures { result ≡ refused_with number }
{
    Told {
        number,
        counted: Counted::Nothing,
        written: 0,
        warned: 0,
    }
}

// How a kept caption is counted.
pub fn counted_by(r: Retimed) -> Counted
    ensures { result ≡ counted_of (decided (fate_for r)) }
{
    if r.start_cut || r.end_cut {
        Counted::Clipped
    } else {
        Counted::Shifted
    }
}
