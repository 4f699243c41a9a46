// Values of JSON texts: white space, numbers, arrays and objects.
#![tactic(auto)]

mod member;
mod number;
mod space;
mod value;

pub use member::{next_row, row_in};
pub use number::{number_width, plain_value};
pub use space::spaces;
pub use spec_json::json::Item;
pub use value::{item_parts, item_width, key_width, value_width};
