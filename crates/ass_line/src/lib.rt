// ASS captions: one line, put through the map.
#![tactic(auto)]

mod caption;

pub use caption::{LineTold, line};
