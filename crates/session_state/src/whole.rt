// Whether a session is foreign (17): it breaks a limit that every session from our calls keeps.
ghost use Rattle.std.specs.Prelude.{◌≡◌, ◌||◌, ltb, length};
ghost use Rattle.spec_text.specs.text.Line.{line_count};
ghost use Rattle.spec_machine.specs.session_counts.Cut.{closed_lines};
ghost use Rattle.spec_machine.specs.session_counts.Session.{outcome_bad};
ghost use Rattle.spec_machine.specs.session_counts.Session as model;
ghost use Rattle.spec_machine.specs.kinds.Kit.{kit, strange};
ghost use Rattle.spec_session.specs.session_state.Head.{view_of};
ghost use Rattle.spec_session.specs.session_state.View.{foreign_of};

use crate::amounts::{columns_bad, config_bad, outcome_bad};
use crate::held::{held_bad, lf_count};
use session_counts::counts_above;
use spec_session::session_state::{Head, Session};

// Whether the outcome can't be, or the open block has more lines than the text has had so far.
fn marks_bad(ended: bool, outcome: u32, lines: u32, held: &[u8]) -> bool
    ensures { result ≡ (outcome_bad ended outcome || ltb lines (line_count (closed_lines held.now))) }
{
    outcome_bad(ended, outcome) || (lines as usize) < lf_count(held)
}

// Whether more bytes are held than were taken, or the columns, the held bytes or the outcome can't be.
fn kept_bad(head: Head, held: &[u8]) -> bool
    ensures { result ≡ (ltb head.taken (length held.now) || (strange head.config.kind head.columns held.now || (outcome_bad head.ended head.outcome || ltb head.lines (line_count (closed_lines held.now))))) }
{
    if (head.taken as usize) < held.len()
        || columns_bad(head.columns)
        || held_bad(head.config.kind, held)
    {
        return true;
    }
    // ASS holds no finished line, so none is counted.
    if head.config.kind == 0 {
        outcome_bad(head.ended, head.outcome)
    } else {
        marks_bad(head.ended, head.outcome, head.lines, held)
    }
}

// Whether a session of these numbers and held bytes is foreign.
pub fn foreign_head(head: Head, held: &[u8]) -> bool
    ensures { result ≡ model.foreign kit (view_of head held.now) }
{
    config_bad(head.config)
        || base::MOST_TAKEN < head.taken
        || counts_above(head.taken, head.counts)
        || head.taken < head.lines
        || kept_bad(head, held)
}

// The numbers of a session, apart from the bytes that it holds.
pub fn head_of(session: &Session) -> Head
    ensures { result ≡ record { config = session.now.config; ended = session.now.ended; outcome = session.now.outcome; taken = session.now.taken; lines = session.now.lines; counts = session.now.counts; columns = session.now.columns; held_len = session.now.held_len } }
{
    Head {
        config: session.config,
        ended: session.ended,
        outcome: session.outcome,
        taken: session.taken,
        lines: session.lines,
        counts: session.counts,
        columns: session.columns,
        held_len: session.held_len,
    }
}

// Whether the session is foreign.
#[tactic(auto, using(spec_session::proofs::session_state::ForeignLaws::foreign_large, spec_session::proofs::session_state::ForeignLaws::foreign_plain))]
pub fn foreign(session: Session) -> bool
    ensures { result ≡ foreign_of session }
{
    let n = session.held_len;
    base::MOST_HELD < n || foreign_head(head_of(&session), base::front(&session.held, n))
}
