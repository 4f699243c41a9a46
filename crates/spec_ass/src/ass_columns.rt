// Types that the definitions of ass_columns name.

// Whether the section is Events, how many columns the last `Format:` line had, and the places of Start and End among them, from 1; 0: absent.
#[derive(Clone, Copy)]
pub struct Columns {
    pub events: bool,
    pub columns: usize,
    pub start: usize,
    pub end: usize,
}
