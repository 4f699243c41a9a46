// Types that the definitions of session_lines name.
use spec_ass::ass_columns::Columns;
use spec_machine::session_counts::Counts;

// What a line told. `skip`: the bytes of a BOM before it; `added`: it joins the open block.
#[derive(Clone, Copy)]
pub struct Taken {
    pub number: u32,
    pub skip: usize,
    pub added: bool,
    pub counts: Counts,
    pub columns: Columns,
    pub written: usize,
    pub warned: usize,
}

// What the end of a block told.
#[derive(Clone, Copy)]
pub struct Ended {
    pub number: u32,
    pub counts: Counts,
    pub written: usize,
    pub warned: usize,
}
