// What every crate shares. No function here has a `requires`.
#![tactic(auto)]

mod amount;
mod limits;
mod part;
mod write;

pub use amount::left_in;
pub use limits::{
    LEAST_OUTPUT, LEAST_PLACES, MOST_BLOCK, MOST_COLUMNS, MOST_FRAME, MOST_FRAMES, MOST_HELD,
    MOST_HOURS, MOST_LINE, MOST_LIST_BYTES, MOST_MINUTES, MOST_PIECE, MOST_PLACES, MOST_SECONDS,
    MOST_SEGMENTS, MOST_SHEET_TIMESCALE, MOST_TAKEN, MOST_TICKS, MOST_TIMESCALE, MOST_TRIMS,
    MOST_UNITS, MOST_WORK,
};
pub use part::{front, get_or, last_part, rest};
pub use write::{put, put_at};
