// What 18 blocks say.
ghost use Rattle.std.specs.Prelude.{◌≡◌, true, ◌&&◌, ◌≤◌, eqb, length, take, drop};
ghost use Rattle.spec_base.specs.base.Limits.{most_held};
ghost use Rattle.spec_sheet.specs.checked_blocks.Block.{word_at};
ghost use Rattle.spec_machine.specs.session_counts.Session.{is_outcome};
ghost use Rattle.spec_parked_blocks.specs.parked_blocks.Sealed.{is_row, room_of, all_zero};
ghost use Rattle.spec_parking.specs.parking.Parked.{is_mark, is_flag, unused_zero, is_parked, session_in};
ghost use Rattle.spec_parking.specs.parking.Head.{head_in};

use ass_columns::Columns;
use caption_fate::Config;
use session_counts::Counts;
use session_state::{Head, Session};

fn is_mark(k: u32) -> bool
    ensures { result ≡ is_mark k }
{
    matches!(k, 1 | 2)
}

fn is_flag(k: u32) -> bool
    ensures { result ≡ is_flag k }
{
    matches!(k, 0 | 1)
}

// Whether mark, ended, outcome and Events are ones that can be.
fn words_good(s: &[u8]) -> bool
    ensures { result ≡ (is_mark (word_at s.now 1) && (is_flag (word_at s.now 4) && (is_outcome (word_at s.now 5) && is_flag (word_at s.now 12)))) }
{
    is_mark(checked_blocks::word(s, 1))
        && is_flag(checked_blocks::word(s, 4))
        && session_state::is_outcome(checked_blocks::word(s, 5))
        && is_flag(checked_blocks::word(s, 12))
}

// Whether the words that are unused once ended are zero, and the room.
fn ended_zero(s: &[u8], room: &[u8]) -> bool
    ensures { result ≡ (eqb (word_at s.now 7) 0 && (all_zero (take 20 (drop 48 s.now)) && all_zero room.now)) }
{
    checked_blocks::word(s, 7) == 0
        && parked_blocks::all_zero(base::front(base::rest(s, 48), 20))
        && parked_blocks::all_zero(room)
}

// Whether no unused byte is other than zero.
fn unused_zero(s: &[u8], room: &[u8]) -> bool
    requires { (room.now ≡ take (length room.now) (room_of s.now)) × (all_zero (drop (length room.now) (room_of s.now)) ≡ true) }
    ensures { result ≡ unused_zero s.now }
{
    if !parked_blocks::all_zero(base::front(base::rest(s, 68), 440)) {
        return false;
    }
    if checked_blocks::word(s, 4) == 0 {
        let n = checked_blocks::word(s, 16) as usize;
        parked_blocks::all_zero(base::rest(room, n))
    } else {
        ended_zero(s, room)
    }
}

// Whether 18 blocks that hold are a parked session, given the start of their room, behind which there are zeros.
#[tactic(auto, using(spec_parking::proofs::parking::ReadLaws::parked_all, spec_parking::proofs::parking::ReadLaws::parked_words))]
pub fn is_parked(s: &[u8], room: &[u8]) -> bool
    requires { (is_row s.now ≡ true) × (room.now ≡ take (length room.now) (room_of s.now)) × (all_zero (drop (length room.now) (room_of s.now)) ≡ true) }
    ensures { result ≡ is_parked s.now }
{
    words_good(s) && unused_zero(s, room)
}

fn config_in(s: &[u8]) -> Config
    ensures { result ≡ (session_in s.now).config }
{
    Config {
        kind: checked_blocks::word(s, 2),
        timescale: checked_blocks::word(s, 3),
    }
}

fn counts_in(s: &[u8]) -> Counts
    ensures { result ≡ (session_in s.now).counts }
{
    Counts {
        shifted: checked_blocks::word(s, 8),
        clipped: checked_blocks::word(s, 9),
        dropped: checked_blocks::word(s, 10),
        passed: checked_blocks::word(s, 11),
    }
}

fn columns_in(s: &[u8]) -> Columns
    ensures { result ≡ (session_in s.now).columns }
{
    Columns {
        events: checked_blocks::word(s, 12) == 1,
        columns: checked_blocks::word(s, 13) as usize,
        start: checked_blocks::word(s, 14) as usize,
        end: checked_blocks::word(s, 15) as usize,
    }
}

// The first 8,192 bytes of the room.
fn held_in(room: &[u8]) -> [u8; 8192]
    requires { most_held ≤ length room.now }
    ensures { result ≡ take most_held room.now }
{
    // Kept: (1) no heap: the memory is fixed.
    let mut held = [0u8; 8192];
    let n = base::put(&mut held, base::front(room, 8192));
    held
}

// The session that the blocks name.
pub fn session_in(s: &[u8], room: &[u8]) -> Session
    requires { (room.now ≡ room_of s.now) × (most_held ≤ length room.now) }
    ensures { result ≡ session_in s.now }
{
    let head = head_in(s);
    Session {
        config: head.config,
        ended: head.ended,
        outcome: head.outcome,
        taken: head.taken,
        lines: head.lines,
        counts: head.counts,
        columns: head.columns,
        held_len: head.held_len,
        held: held_in(room),
    }
}

// The numbers of the session that the blocks name.
pub fn head_in(s: &[u8]) -> Head
    ensures { result ≡ head_in s.now }
{
    Head {
        config: config_in(s),
        ended: checked_blocks::word(s, 4) == 1,
        outcome: checked_blocks::word(s, 5),
        taken: checked_blocks::word(s, 6),
        lines: checked_blocks::word(s, 7),
        counts: counts_in(s),
        columns: columns_in(s),
        held_len: checked_blocks::word(s, 16) as usize,
    }
}
