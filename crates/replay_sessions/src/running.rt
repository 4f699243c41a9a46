// A text fed in pieces. Its counts and warnings are printed before its bytes, so both are kept to the end.
ghost use Rattle.std.specs.Prelude.{◌≡◌, ◌≤◌, length};

use crate::notes::note_all;
use crate::pieces::{next_draw, piece_size};
use crate::storing::{Plan, after};
use session::Fed;
use session_state::Session;

// What the calls so far came to: the first number that is not 0, the places after the new text and after the warnings, the session, how many calls.
#[derive(Clone, Copy)]
pub struct Step {
    pub number: u32,
    pub written: usize,
    pub noted: usize,
    pub session: Session,
    pub calls: u32,
}

// What a call came to, and a parking where one is due. The new text has `most` places.
fn called(
    before: Step,
    fed: Fed,
    plan: Plan,
    warnings: &[u64],
    notes: &mut [u8],
    most: usize,
) -> Step
    ensures { result.written ≤ most }
{
    let noted = note_all(notes, before.noted, warnings, fed.warned);
    let calls = before.calls.wrapping_add(1);
    let kept = after(fed.session, plan, calls);
    Step {
        number: if fed.number != 0 {
            fed.number
        } else {
            kept.number
        },
        written: before.written.saturating_add(fed.written).min(most),
        noted,
        session: kept.session,
        calls,
    }
}

// One piece.
fn take_piece(
    before: Step,
    map: &[u64],
    piece: &[u8],
    plan: Plan,
    all: &mut [u8],
    warnings: &mut [u64],
    notes: &mut [u8],
) -> Step
    requires { before.written ≤ length all.old }
    ensures { result.written ≤ length all.old }
{
    let most = all.len();
    let fed = session::feed(
        before.session,
        map,
        piece,
        &mut all[before.written..],
        warnings,
    );
    called(before, fed, plan, warnings, notes, most)
}

// The end of the text.
fn end_at(before: Step, map: &[u64], plan: Plan, all: &mut [u8], notes: &mut [u8]) -> Step
    requires { before.written ≤ length all.old }
    ensures { result.written ≤ length all.old }
{
    // Kept: (1) no heap: the memory is fixed.
    let mut warnings = [0u64; 4096];
    let most = all.len();
    let last = session::finish(
        before.session,
        map,
        &mut all[before.written..],
        &mut warnings,
    );
    called(before, last, plan, &warnings, notes, most)
}

// Before the first call.
fn begun(session: Session) -> Step
    ensures { result.written ≡ 0 }
{
    Step {
        number: 0,
        written: 0,
        noted: 0,
        session,
        calls: 0,
    }
}

// The text fed in pieces cut by the plan.
fn feed_all(
    session: Session,
    map: &[u64],
    text: &[u8],
    plan: Plan,
    all: &mut [u8],
    notes: &mut [u8],
) -> Step
    ensures { result.written ≤ length all.old }
{
    // Kept: (1) no heap: the memory is fixed.
    let mut places = [0u64; 4096];
    let mut t = text;
    let mut draw = plan.cut;
    let mut s = begun(session);
    while 0 < t.len() {
        draw = next_draw(draw);
        let k = piece_size(plan.cut, draw);
        s = take_piece(s, map, base::front(t, k), plan, all, &mut places, notes);
        if s.number != 0 {
            return s;
        }
        let u = base::rest(t, k);
        t = u;
    }
    s
}

// The text in pieces, then a finish where one is asked for.
pub fn run(
    session: Session,
    map: &[u64],
    text: &[u8],
    plan: Plan,
    ending: bool,
    all: &mut [u8],
    notes: &mut [u8],
) -> Step {
    let s = feed_all(session, map, text, plan, all, notes);
    if s.number == 0 && ending {
        end_at(s, map, plan, all, notes)
    } else {
        s
    }
}
