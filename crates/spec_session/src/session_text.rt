// Types that the definitions of session_text name.
use crate::session_state::Head;
use spec_ass::ass_columns::Columns;
use spec_machine::session_counts::Counts;

// What take_text hands back: both lengths are those written to the lent output and places; what is held afterwards stands in the text from `begin` on.
#[derive(Clone, Copy)]
pub struct TextFed {
    pub number: u32,
    pub written: usize,
    pub warned: usize,
    pub begin: usize,
    pub head: Head,
}

// How far the lines have led: `place` bytes are taken, the open block begins at `begin`. Stopped by a fault, `number` has it.
#[derive(Clone, Copy)]
pub struct Lined {
    pub number: u32,
    pub lines: u32,
    pub counts: Counts,
    pub columns: Columns,
    pub begin: usize,
    pub place: usize,
    pub written: usize,
    pub warned: usize,
}
