// Types that the definitions of trim name.
use spec_sheet::order::DisplayIdx;

// What a list gives: 0 and how many ranges, or the number of the refusal and 0.
#[derive(Clone, Copy)]
pub struct Parsed {
    pub number: u32,
    pub count: usize,
}

// The range that a token says, end excluded.
#[derive(Clone, Copy)]
pub struct Range {
    pub start: DisplayIdx,
    pub end: DisplayIdx,
}
