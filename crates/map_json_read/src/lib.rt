// A segment map read from the JSON of the Rust cutter.
#![tactic(auto)]

mod fields;
mod reading;
mod walk;

pub use reading::read_map;
pub use spec_map_json::map_json_read::Taken;
