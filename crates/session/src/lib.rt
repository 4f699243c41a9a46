// The session: takes a caption text in pieces and writes it back retimed.
#![tactic(auto)]

mod calling;
mod ending;
mod running;

pub use calling::{feed, finish, lengths_bad, open};
pub use spec_session::session::{Fed, Opened};
