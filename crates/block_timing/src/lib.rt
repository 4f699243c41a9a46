// Where the times of a block stand: the timing line, its parts about the arrow, and the lines that end a block.
#![tactic(auto)]

mod blank;
mod header;
mod stamps;
mod timing;

pub use blank::is_blank_in;
pub use header::{header_due, is_header};
pub use spec_cue::block_timing::Place;
pub use stamps::stamps_in;
pub use timing::{after_arrow, before_arrow, end_length, locate};
