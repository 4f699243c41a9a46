// The list of segments in a map's JSON, and fields that are numbers.
#![tactic(auto)]

pub mod list;
pub mod number;
