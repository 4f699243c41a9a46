// White_Space, and texts stripped of it.
#![tactic(auto)]

mod white;

pub use white::{trim_head, trim_tail, trimmed};
