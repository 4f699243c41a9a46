// A caption's time as text: read and written, by kind.
#![tactic(auto)]

mod read;
mod write;

pub use read::read_time;
pub use spec_time::caption_stamp::Stamp;
pub use write::{digits, last_digits, write_time, write_time_at};
