// What the programs over files share: a file's bytes, the map of a sheet and a list printed, the segments of a map.
#![tactic(auto)]

mod file;
mod print;
mod segments;

pub use file::{File, load, open_below, path_below, read_full};
pub use print::{print_map, print_map_of, print_named, print_number, print_rows};
pub use segments::first_segments;
