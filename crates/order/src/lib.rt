// Two counts of frames, which are never used for one another.
#![tactic(auto)]

mod index;

pub use index::frame_count;
pub use spec_sheet::order::{DecodeIdx, DisplayIdx};
