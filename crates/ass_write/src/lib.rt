// ASS lines: the tags of a caption, and its new line.
#![tactic(auto)]

mod tags;
mod writing;

pub use tags::has_tag;
pub use writing::{Times, write_kept};
