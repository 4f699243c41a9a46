// Decimal numbers and lines of a text.
#![tactic(auto)]

mod decimal;
mod line;

pub use decimal::{digits_to, is_digit, number_to};
pub use line::{is_blank, line_length, terminator_of, text_of};
