// The limits of a session's numbers; a session past one of them is foreign (17).
ghost use Rattle.std.specs.Prelude.{◌≡◌};
ghost use Rattle.spec_machine.specs.session_counts.Session.{config_bad, is_outcome, outcome_bad};
ghost use Rattle.spec_machine.specs.kinds.Kit.{columns_bad};

use ass_columns::Columns;
use caption_fate::Config;

// Whether there is no such kind, or the timescale is out of range.
pub fn config_bad(config: Config) -> bool
    ensures { result ≡ config_bad config }
{
    caption_time::kind_bad(config.kind) || caption_time::timescale_bad(config.timescale)
}

// Whether a text can end with this number: 0, a fault of the text (19 to 22), or 24 (no WebVTT header).
#[tactic(auto, unfolding(spec_machine::specs::session_counts::Session::is_outcome))]
pub fn is_outcome(outcome: u32) -> bool
    ensures { result ≡ is_outcome outcome }
{
    matches!(outcome, 0 | 19..=22 | 24)
}

// Whether no text ends with this number, or it is a fault of a text that has not ended.
#[tactic(auto, unfolding(spec_machine::specs::session_counts::Session::outcome_bad))]
pub fn outcome_bad(ended: bool, outcome: u32) -> bool
    ensures { result ≡ outcome_bad ended outcome }
{
    !is_outcome(outcome) || (!ended && outcome != 0)
}

// Whether there are too many ASS columns, or the column of the start or the end is past the last.
#[tactic(auto, unfolding(spec_machine::specs::kinds::Kit::columns_bad))]
pub fn columns_bad(columns: Columns) -> bool
    ensures { result ≡ columns_bad columns }
{
    base::MOST_COLUMNS < columns.columns
        || columns.columns < columns.start
        || columns.columns < columns.end
}
