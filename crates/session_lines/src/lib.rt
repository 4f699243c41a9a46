// One line of a text taken: retimed, or held for its block; and the end of a block.
#![tactic(auto)]

mod closing;
mod taking;
mod telling;

pub use closing::end_block;
pub use spec_session::session_lines::{Ended, Taken};
pub use taking::{put_bom, take_line, take_line_by};
