// A whole text: one feed of it, and the finish.
ghost use Rattle.std.specs.Prelude.{◌≡◌, ◌≤◌, length};
ghost use Rattle.spec_base.specs.base.Limits.{most_held};
ghost use Rattle.spec_session.specs.session_state.View.{view};
ghost use Rattle.spec_session.specs.session_state.Head.{view_of};
ghost use Rattle.spec_runs.specs.one_call.Ran.{Ready, begun_of, RanText};

use session::Fed;
use session_state::{Head, Session};
use session_text::{TextFed, take_text};
use spec_runs::one_call::Ran;

// The numbers of a session that has just been opened.
fn begun(session: Session) -> Head
    ensures { result ≡ begun_of session }
{
    Head {
        held_len: 0,
        ..session_state::head_of(&session)
    }
}

// The session of these numbers that holds `kept`.
fn resumed(head: Head, kept: &[u8]) -> Session
    requires { length kept.now ≤ most_held }
    ensures { (view result ≡ view_of head kept.now) × (length result.held ≡ most_held) }
{
    // Kept: (1) no heap: the memory is fixed.
    let mut held = [0u8; 8192];
    let n = base::put(&mut held, kept);
    Session {
        config: head.config,
        ended: head.ended,
        outcome: head.outcome,
        taken: head.taken,
        lines: head.lines,
        counts: head.counts,
        columns: head.columns,
        held_len: n,
        held,
    }
}

// The text ended by a fault.
fn stopped(fed: TextFed) -> Ran
    ensures { (result.number ≡ fed.number) × (result.written ≡ fed.written) × (result.warned ≡ fed.warned) × (result.counts ≡ fed.head.counts) }
{
    Ran {
        number: fed.number,
        written: fed.written,
        warned: fed.warned,
        counts: fed.head.counts,
    }
}

// After the finish.
fn ended(last: Fed, written: usize, warned: usize) -> Ran
    ensures { (result.number ≡ last.number) × (result.written ≡ written) × (result.warned ≡ warned) × (result.counts ≡ last.session.counts) }
{
    Ran {
        number: last.number,
        written,
        warned,
        counts: last.session.counts,
    }
}

// The text is fed at once; then comes the finish of what is held.
pub fn run_text(
    session: Session,
    map: &[u64],
    text: &[u8],
    out: &mut [u8],
    warnings: &mut [u64],
) -> Ran
    requires { Ready session map.now (length text.now) (length out.old) (length warnings.old) }
    ensures { RanText session.config map.now text.now result out.old out.new warnings.old warnings.new }
{
    let fed = take_text(begun(session), map, text, false, out, warnings);
    if fed.number != 0 {
        return stopped(fed);
    }
    let b = fed.begin;
    let o = fed.written;
    let w = fed.warned;
    let at = resumed(fed.head, &text[b..]);
    let last = session::finish(at, map, &mut out[o..], &mut warnings[w..]);
    ended(last, o + last.written, w + last.warned)
}
