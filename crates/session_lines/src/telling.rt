// The results of taking a line and of ending a block: number, counts, bytes written, warning places written.
ghost use Rattle.std.specs.Prelude.{◌≡◌, ◌+◌, ◌<◌, ◌^◌};
ghost use Rattle.spec_session.specs.session_lines.LinesThrough.{most_count, lent_bad};
ghost use Rattle.spec_session.specs.session_lines.Told.{count_by, quiet_line, quiet_end, blank_line, behind_line};
ghost use Rattle.spec_session.specs.session_lines.Done.{Below};

use ass_columns::Columns;
use caption_fate::Counted;
use session_counts::Counts;
use spec_session::session_lines::{Ended, Taken};

// The most that a count may be before a line or a block's end.
const MOST_COUNT: u32 = 2147483648;

// The result of a line that wrote nothing; `added` where the line joins the open block.
pub fn quiet(number: u32, added: bool, counts: Counts, columns: Columns) -> Taken
    ensures { result ≡ quiet_line number added counts columns }
{
    Taken {
        number,
        skip: 0,
        added,
        counts,
        columns,
        written: 0,
        warned: 0,
    }
}

// The result of a block's end that wrote nothing.
pub fn still(number: u32, counts: Counts) -> Ended
    ensures { result ≡ quiet_end number counts }
{
    Ended {
        number,
        counts,
        written: 0,
        warned: 0,
    }
}

// The result of a blank line that ended a block; `written` counts the bytes of block and line together.
pub fn blank(end: Ended, columns: Columns, written: usize) -> Taken
    ensures { result ≡ blank_line columns end written }
{
    Taken {
        number: 0,
        skip: 0,
        added: false,
        counts: end.counts,
        columns,
        written,
        warned: end.warned,
    }
}

// The counts with one more caption of this fate.
pub fn count(counts: Counts, counted: Counted) -> Counts
    requires { Below counts most_count }
    ensures { result ≡ count_by counted counts }
{
    match counted {
        Counted::Nothing => counts,
        Counted::Passed => Counts {
            passed: counts.passed + 1,
            ..counts
        },
        Counted::Dropped => Counts {
            dropped: counts.dropped + 1,
            ..counts
        },
        Counted::Shifted => Counts {
            shifted: counts.shifted + 1,
            ..counts
        },
        Counted::Clipped => Counts {
            clipped: counts.clipped + 1,
            ..counts
        },
    }
}

// The result of a line behind a BOM, whose three bytes are written before it and are no part of the block.
pub fn behind_bom(told: Taken) -> Taken
    requires { 3 + told.written < 2 ^ 64 }
    ensures { result ≡ behind_line told }
{
    Taken {
        number: 0,
        skip: 3,
        written: 3 + told.written,
        ..told
    }
}

// 16: whether the output lent for `size` bytes is too short, the places are too few, or a count is too high.
#[tactic(auto, unfolding(spec_session::specs::session_lines::LinesThrough::lent_bad))]
pub fn lent_bad(counts: Counts, size: usize, room: usize, places: usize) -> bool
    ensures { result ≡ lent_bad counts size room places }
{
    room / 3 < size || places < 4 || session_counts::counts_above(MOST_COUNT, counts)
}
