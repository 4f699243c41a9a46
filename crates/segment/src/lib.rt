// A segment of a map, and the limits of a map given as flat numbers.
#![tactic(auto)]

mod grouping;
mod segment;

pub use grouping::survey;
pub use segment::{end_bad, map_bad, numbers_of};
pub use spec_map::segment::{Segment, Surveyed};
