// open, feed and finish.
ghost use Rattle.std.specs.Prelude.{◌≡◌, length};
ghost use Rattle.refusals.specs.Numbers.{told};
ghost use Rattle.spec_machine.specs.kinds.Takes.{no_columns};
ghost use Rattle.spec_session.specs.session.SessionCalls.{Answered, OpenAnswered, feed_call, finish_call, open_of, lengths_bad, refusal_of, begin_at, ended_session, unchanged_fed, ended_fed, held_fed};

use crate::ending::finish_run;
use crate::running::run_piece;
use ass_columns::Columns;
use caption_fate::Config;
use refusals::Refusal;
use session_counts::Counts;
use session_state::Session;
use spec_session::session::{Fed, Going, Opened};

// 16, by the lengths.
pub fn lengths_bad(taken: u32, piece: usize, out: usize, places: usize) -> bool
    ensures { result ≡ lengths_bad taken piece out places }
{
    base::MOST_PIECE < piece
        || out < base::LEAST_OUTPUT
        || places < base::LEAST_PLACES
        || (base::MOST_TAKEN as usize) < (taken as usize) + piece
}

// Why a call is refused.
fn refusal(
    session: Session,
    map: &[u64],
    piece: usize,
    out: usize,
    places: usize,
) -> Result<(), Refusal>
    ensures { told result ≡ refusal_of session map.now piece out places }
{
    if session_state::foreign(session) {
        return Err(Refusal::ForeignSession);
    }
    if session.ended {
        return Err(Refusal::Ended);
    }
    if segment::map_bad(map) {
        return Err(Refusal::BadMap);
    }
    if lengths_bad(session.taken, piece, out, places) {
        return Err(Refusal::BadArgument);
    }
    Ok(())
}

// Where a call begins.
fn begin(session: Session) -> Going
    ensures { result ≡ begin_at session }
{
    let start = session_state::block_end(base::front(&session.held, session.held_len));
    Going {
        number: 0,
        lines: session.lines,
        counts: session.counts,
        columns: session.columns,
        start,
        held: session.held_len,
        written: 0,
        warned: 0,
    }
}

// Outside Events, columns unknown.
fn no_columns() -> Columns
    ensures { result ≡ no_columns }
{
    Columns {
        events: false,
        columns: 0,
        start: 0,
        end: 0,
    }
}

// An ended session holds nothing.
fn end_session(config: Config, outcome: u32, taken: u32, counts: Counts) -> Session
    ensures { result ≡ ended_session config outcome taken counts }
{
    Session {
        config,
        ended: true,
        outcome,
        taken,
        lines: 0,
        counts,
        columns: no_columns(),
        held_len: 0,
        held: [0; 8192],
    }
}

// 15 for T or the map, then 16 for the kind.
fn open_refusal(kind: u32, timescale: u32, map: &[u64]) -> Result<(), Refusal>
    ensures { told result ≡ (open_of kind timescale map.now).number }
{
    if caption_time::timescale_bad(timescale) {
        return Err(Refusal::BadMap);
    }
    if segment::map_bad(map) {
        return Err(Refusal::BadMap);
    }
    if caption_time::kind_bad(kind) {
        return Err(Refusal::BadArgument);
    }
    Ok(())
}

// A session for a text of the kind (0 ASS, 1 SRT, 2 WebVTT), of T ticks a second, through the map.
pub fn open(kind: u32, timescale: u32, map: &[u64]) -> Opened
    ensures { OpenAnswered kind timescale map.now result }
{
    let none = Counts {
        shifted: 0,
        clipped: 0,
        dropped: 0,
        passed: 0,
    };
    if let Err(refused) = open_refusal(kind, timescale, map) {
        let config = Config {
            kind: 0,
            timescale: 1,
        };
        let session = end_session(config, 0, 0, none);
        return Opened {
            number: u32::from(refused),
            session,
        };
    }
    let session = Session {
        config: Config { kind, timescale },
        ended: false,
        outcome: 0,
        taken: 0,
        lines: 0,
        counts: none,
        columns: no_columns(),
        held_len: 0,
        held: [0; 8192],
    };
    Opened { number: 0, session }
}

// The session as it came, with a number.
fn unchanged(number: u32, session: Session) -> Fed
    ensures { result ≡ unchanged_fed number session }
{
    Fed {
        number,
        written: 0,
        warned: 0,
        session,
    }
}

// The text ended: by a fault, or by a finish.
fn over(config: Config, taken: u32, end: Going) -> Fed
    ensures { result ≡ ended_fed config taken end }
{
    Fed {
        number: end.number,
        written: end.written,
        warned: end.warned,
        session: end_session(config, end.number, taken, end.counts),
    }
}

// The text goes on: `held` are the bytes of what is unfinished, and zeros.
fn going_on(config: Config, outcome: u32, taken: u32, end: Going, held: [u8; 8192]) -> Fed
    ensures { result ≡ held_fed config outcome taken end held }
{
    let session = Session {
        config,
        ended: false,
        outcome,
        taken,
        lines: end.lines,
        counts: end.counts,
        columns: end.columns,
        held_len: end.held,
        held,
    };
    Fed {
        number: 0,
        written: end.written,
        warned: end.warned,
        session,
    }
}

// A piece of the text.
pub fn feed(
    session: Session,
    map: &[u64],
    piece: &[u8],
    out: &mut [u8],
    warnings: &mut [u64],
) -> Fed
    ensures { Answered session (feed_call map.now piece.now (length out.old) (length warnings.old)) result out.old out.new warnings.old warnings.new }
{
    if let Err(refused) = refusal(session, map, piece.len(), out.len(), warnings.len()) {
        return unchanged(u32::from(refused), session);
    }
    if piece.is_empty() {
        return unchanged(0, session);
    }
    let mut held = session.held;
    let config = session.config;
    let start = begin(session);
    let end = run_piece(config, map, start, piece, &mut held, out, warnings);
    let taken = session.taken + (piece.len() as u32);
    if end.number != 0 {
        return over(config, taken, end);
    }
    let n = end.held;
    held[n..].fill(0);
    going_on(config, session.outcome, taken, end, held)
}

// What is held as a last line; the session ends.
pub fn finish(session: Session, map: &[u64], out: &mut [u8], warnings: &mut [u64]) -> Fed
    ensures { Answered session (finish_call map.now (length out.old) (length warnings.old)) result out.old out.new warnings.old warnings.new }
{
    if let Err(refused) = refusal(session, map, 0, out.len(), warnings.len()) {
        return unchanged(u32::from(refused), session);
    }
    let mut held = session.held;
    let config = session.config;
    let start = begin(session);
    let end = finish_run(config, map, start, &mut held, out, warnings);
    over(config, session.taken, end)
}
