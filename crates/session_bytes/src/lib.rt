// A session kept as its 18 blocks: opened, fed and finished over bytes. No exported function has a `requires`.
#![tactic(auto)]

mod calling;
mod opening;

pub use calling::{feed, finish, told_in};
pub use opening::open;
pub use spec_parking::session_bytes::Told;
