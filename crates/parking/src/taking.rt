// A session taken up.
ghost use Rattle.std.specs.Prelude.{◌≡◌, true, ◌≤◌, length};
ghost use Rattle.spec_base.specs.base.Limits.{most_held};
ghost use Rattle.spec_base.specs.base.Put.{put};
ghost use Rattle.refusals.specs.Numbers.{number_of, told};
ghost use Rattle.spec_sheet.specs.checked_blocks.Block.{word_at};
ghost use Rattle.spec_machine.specs.session_counts.Session.{no_session};
ghost use Rattle.spec_machine.specs.kinds.Kit.{kit};
ghost use Rattle.spec_session.specs.session_state.View.{stored};
ghost use Rattle.spec_parked_blocks.specs.parked_blocks.Sealed.{is_row, room_of};
ghost use Rattle.spec_parking.specs.parking.Parkings.{TakesUp};
ghost use Rattle.spec_parking.specs.parking.Head.{in_number, copied_in, TakesIn};

use crate::reading::{head_in, is_parked, session_in};
use ass_columns::Columns;
use caption_fate::Config;
use refusals::Refusal;
use session_counts::Counts;
use session_state::Session;
use spec_parking::parking::{TakenIn, TakenUp};

// What a refused open returns.
fn no_session() -> Session
    ensures { result ≡ stored (no_session kit) }
{
    Session {
        config: Config {
            kind: 0,
            timescale: 1,
        },
        ended: true,
        outcome: 0,
        taken: 0,
        lines: 0,
        counts: Counts {
            shifted: 0,
            clipped: 0,
            dropped: 0,
            passed: 0,
        },
        columns: Columns {
            events: false,
            columns: 0,
            start: 0,
            end: 0,
        },
        held_len: 0,
        held: [0; 8192],
    }
}

fn refused(refusal: Refusal) -> TakenUp
    ensures { result ≡ record { number = number_of refusal; session = stored (no_session kit) } }
{
    TakenUp {
        number: u32::from(refusal),
        session: no_session(),
    }
}

// Takes up the session of 18 blocks that hold, given the bytes of blocks 1 to 17.
fn take_row(bytes: &[u8], room: &[u8]) -> TakenUp
    requires { (is_row bytes.now ≡ true) × (room.now ≡ room_of bytes.now) × (most_held ≤ length room.now) }
    ensures { TakesUp bytes.now result }
{
    if is_parked(bytes, room) {
        let session = session_in(bytes, room);
        if session_state::foreign(session) {
            refused(Refusal::ForeignSession)
        } else {
            TakenUp { number: 0, session }
        }
    } else {
        refused(Refusal::NotParked)
    }
}

// Takes up the session that 18 blocks hold.
pub fn take_up(bytes: &[u8]) -> TakenUp
    ensures { TakesUp bytes.now result }
{
    // Kept: (1) no heap: the memory is fixed.
    let mut room = [0u8; 8568];
    if parked_blocks::unseal(bytes, &mut room) {
        take_row(bytes, &room)
    } else {
        refused(Refusal::NotParked)
    }
}

// Why `take_in` is refused, and the bytes of the blocks that n held bytes take.
fn refusal_in(bytes: &[u8], n: usize, room: &mut [u8]) -> Result<(), Refusal>
    requires { n ≡ word_at bytes.now 16 }
    ensures { (told result ≡ in_number bytes.now (length room.old)) × (room.new ≡ put (copied_in bytes.now (length room.old)) room.old) }
{
    if room.len() < 8568 {
        return Err(Refusal::BadArgument);
    }
    if parked_blocks::unseal_first(bytes, n, room) {
        let k = parked_blocks::blocks_for(n);
        if is_parked(bytes, base::front(room, 504 * k)) {
            return Ok(());
        }
    }
    Err(Refusal::NotParked)
}

// Takes up a session by its numbers, its held bytes at the start of `room`. 17 is not asked.
pub fn take_in(bytes: &[u8], room: &mut [u8]) -> TakenIn
    ensures { TakesIn bytes.now result room.old room.new }
{
    let head = head_in(bytes);
    let number = refusals::number(refusal_in(bytes, head.held_len, room));
    TakenIn { number, head }
}
