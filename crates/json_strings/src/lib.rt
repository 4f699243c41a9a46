// Strings of JSON texts: escapes, what a string says, and names compared.
#![tactic(auto)]

mod escape;
mod piece;
mod string;

pub use spec_json::json::Piece;
pub use string::{name_is, string_bytes, string_size, string_width};
