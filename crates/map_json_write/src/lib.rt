// A segment map as the JSON of the Rust cutter.
#![tactic(auto)]

mod layout;
mod pieces;
mod quoting;
mod writing;

pub use spec_map_json::map_json_write::Wrote;
pub use writing::write_map;
