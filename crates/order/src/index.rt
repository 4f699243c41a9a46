// A frame's place, in display order and in decode order.
ghost use Rattle.std.specs.Prelude.{◌≡◌};
ghost use Rattle.spec_sheet.specs.order.Count.{frame_count};

use spec_sheet::order::DisplayIdx;

// How many frames there are from `start` to `end`, `end` excluded; 0 where `end` is below `start`.
pub fn frame_count(start: DisplayIdx, end: DisplayIdx) -> u32
    ensures { result ≡ frame_count start end }
{
    end.0.saturating_sub(start.0)
}
