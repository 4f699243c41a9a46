// The session that a caller keeps between two calls, and the test for a foreign one (17).
#![tactic(auto)]

mod amounts;
mod held;
mod whole;

pub use amounts::is_outcome;
pub use held::block_end;
pub use spec_session::session_state::{Head, Session};
pub use whole::{foreign, foreign_head, head_of};
