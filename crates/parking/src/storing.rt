// A session stored.
ghost use Rattle.std.specs.Prelude.{◌≡◌, true, false, cond, ◌%◌, ◌^◌, ◌≤◌, length};
ghost use Rattle.spec_base.specs.base.Put.{put};
ghost use Rattle.refusals.specs.Numbers.{told};
ghost use Rattle.spec_parking.specs.parking.Parked.{head_words, parked_of};
ghost use Rattle.spec_parking.specs.parking.Head.{bare_of, head_bytes, restored};
ghost use Rattle.spec_parked_blocks.specs.parked_blocks.Sealed.{sealed_length, words_bytes};
ghost use Rattle.spec_parking.specs.parking.Parkings.{park_number, Parks, Stores};

use refusals::Refusal;
use session_state::{Head, Session};

// The mark of a house that warns of lost parts by request 2.7's rule.
const MARK: u32 = 2;

// The low 32 bits.
fn low_word(n: usize) -> u32
    ensures { result ≡ n % 2 ^ 32 }
{
    (n % 4294967296) as u32
}

// Words 1 to 16 of a session that is going on.
fn live_words(head: Head) -> [u32; 16]
    requires { head.ended ≡ false }
    ensures { words_bytes result ≡ head_bytes head }
{
    let counts = head.counts;
    let columns = head.columns;
    [
        MARK,
        head.config.kind,
        head.config.timescale,
        0,
        head.outcome,
        head.taken,
        head.lines,
        counts.shifted,
        counts.clipped,
        counts.dropped,
        counts.passed,
        u32::from(columns.events),
        low_word(columns.columns),
        low_word(columns.start),
        low_word(columns.end),
        low_word(head.held_len),
    ]
}

// The same of an ended one: words 7 and 12 to 16 are unused.
fn ended_words(head: Head) -> [u32; 16]
    requires { head.ended ≡ true }
    ensures { result ≡ head_words 2 (bare_of head) }
{
    let counts = head.counts;
    [
        MARK,
        head.config.kind,
        head.config.timescale,
        1,
        head.outcome,
        head.taken,
        0,
        counts.shifted,
        counts.clipped,
        counts.dropped,
        counts.passed,
        0,
        0,
        0,
        0,
        0,
    ]
}

// Words 1 to 16, as their bytes tell them: of a number above 32 bits, which only a foreign head has, the low ones.
fn head_words(head: Head) -> [u32; 16]
    ensures { words_bytes result ≡ head_bytes head }
{
    if head.ended {
        ended_words(head)
    } else {
        live_words(head)
    }
}

// 17, then 16, else 0.
fn park_refusal(session: Session, lent: usize) -> u32
    ensures { result ≡ park_number session lent }
{
    if session_state::foreign(session) {
        return 17;
    }
    if lent < 9216 {
        return 16;
    }
    0
}

// How many bytes are stored.
fn kept_length(session: &Session) -> usize
    ensures { result ≡ cond session.now.ended 0 session.now.held_len }
{
    if session.ended { 0 } else { session.held_len }
}

// The bytes of words 1 to 16.
fn number_bytes(head: Head) -> [u8; 64]
    ensures { result ≡ head_bytes head }
{
    parked_blocks::words_bytes(head_words(head))
}

// The bytes of words 1 to 16 of a session.
fn head_bytes(session: &Session) -> [u8; 64]
    ensures { result ≡ words_bytes (head_words 2 session.now) }
{
    number_bytes(session_state::head_of(session))
}

// The 18 blocks, at the start.
fn store(session: &Session, out: &mut [u8])
    requires { sealed_length ≤ length out.old }
    ensures { out.new ≡ put (parked_of 2 session.now) out.old }
{
    let head = head_bytes(session);
    let n = kept_length(session);
    parked_blocks::seal(out, &head, base::front(&session.held, n));
}

// Stores any session so, a foreign one too: 16 where fewer than 9,216 bytes are lent.
pub fn keep(session: Session, out: &mut [u8]) -> Result<(), Refusal>
    ensures { Stores session (told result) out.old out.new }
{
    if out.len() < 9216 {
        return Err(Refusal::BadArgument);
    }
    store(&session, out);
    Ok(())
}

// Stores the session as 18 blocks at the start of `out`, with mark 2.
pub fn park(session: Session, out: &mut [u8]) -> u32
    ensures { Parks session result out.old out.new }
{
    let refused = park_refusal(session, out.len());
    if refused != 0 {
        return refused;
    }
    store(&session, out);
    0
}

// Stores, with mark 2, the session of these numbers and held bytes in the place of one that held `old` bytes: only the blocks that had bytes or have some now. Nothing where 18 blocks or the bytes have no place.
pub fn restore(head: Head, held: &[u8], old: usize, bytes: &mut [u8])
    ensures { bytes.new ≡ restored head held.now old bytes.old }
{
    let words = number_bytes(head);
    parked_blocks::seal_first(bytes, &words, held, held.len().max(old));
}
