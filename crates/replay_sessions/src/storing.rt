// A session stored and taken up between two calls.
use parking::TakenUp;
use session_state::Session;

// How a text is fed: the plan by which it is cut, and a parking after every so many calls, 0 being none, with this mark.
#[derive(Clone, Copy)]
pub struct Plan {
    pub cut: u32,
    pub every: u32,
    pub mark: u32,
}

// No parking.
pub fn plain(cut: u32) -> Plan {
    Plan {
        cut,
        every: 0,
        mark: 2,
    }
}

// A parking after every so many calls, with the mark that is the first byte of y.
pub fn with_parkings(cut: u32, every: u32, y: &[u8]) -> Plan {
    let mark = u32::from(base::get_or(y, 0, 0));
    Plan { cut, every, mark }
}

// Mark 1 in the place of mark 2, and the sum of block 0 made again: as a house with document 01's rule stores it.
fn with_mark_1(bytes: &mut [u8]) {
    let sum = checked_blocks::word(bytes, 127);
    base::put_at(bytes, 4, &1u32.to_le_bytes());
    base::put_at(bytes, 508, &sum.wrapping_sub(1).to_le_bytes());
}

// The session stored and taken up again, or the number of what was refused.
fn again(session: Session, mark: u32) -> TakenUp {
    // Kept: (1) no heap: the memory is fixed.
    let mut bytes = [0u8; 9216];
    let number = parking::park(session, &mut bytes);
    if number != 0 {
        return TakenUp { number, session };
    }
    if mark == 1 {
        with_mark_1(&mut bytes);
    }
    parking::take_up(&bytes)
}

// The session after so many calls: stored and taken up where a parking is due.
pub fn after(session: Session, plan: Plan, calls: u32) -> TakenUp {
    match calls.checked_rem(plan.every) {
        Some(0) => again(session, plan.mark),
        _ => TakenUp { number: 0, session },
    }
}
