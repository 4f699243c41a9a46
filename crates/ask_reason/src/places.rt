// The fate as a number.
ghost use Rattle.std.specs.Prelude.{◌≡◌};
ghost use Rattle.spec_ask.specs.ask_reason.Reason.{fate_code};

use caption_fate::Counted;

// 0 dropped, 1 shifted, 2 clipped.
pub fn fate_code(fate: Counted) -> u64
    ensures { result ≡ fate_code fate }
{
    match fate {
        Counted::Nothing | Counted::Passed | Counted::Dropped => 0,
        Counted::Shifted => 1,
        Counted::Clipped => 2,
    }
}
