// One caption against the map (the Rust's map_event).
#![tactic(auto)]

mod meeting;
mod retiming;
mod telling;

pub use meeting::{ended, find_hit, meets};
pub use retiming::decide;
pub use spec_caption::caption_fate::{Config, Counted, Decision, Met, Retimed, Told};
pub use telling::{counted_by, refused};
