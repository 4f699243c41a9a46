// The columns of a `Format:` line, the lines that name a section, and the fields of a caption line.
#![tactic(auto)]

mod fields;
mod layout;
mod section;

pub use fields::{enough, field, field_length};
pub use layout::{Format, columns_of};
pub use section::{in_section, is_section, names_events};
pub use spec_ass::ass_columns::Columns;
