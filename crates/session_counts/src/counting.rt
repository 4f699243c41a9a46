// How many captions of a text met each fate.
ghost use Rattle.std.specs.Prelude.{◌≡◌};
ghost use Rattle.spec_machine.specs.session_counts.Session.{counts_above};

use spec_machine::session_counts::Counts;

// Whether a count is above a number: for 17 the bytes taken.
pub fn counts_above(taken: u32, counts: Counts) -> bool
    ensures { result ≡ counts_above taken counts }
{
    taken < counts.shifted
        || taken < counts.clipped
        || taken < counts.dropped
        || taken < counts.passed
}
