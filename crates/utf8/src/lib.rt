// Characters of a text: UTF-8.
#![tactic(auto)]

mod utf8;

pub use utf8::{char_width, code_head, is_tail, is_utf8};
