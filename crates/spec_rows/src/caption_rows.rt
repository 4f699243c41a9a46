// Types that the definitions of caption_rows name.

// A fault's number and line; else whether there is a caption: line, warning (0, 1, 2), start, end, and where its words stand.
#[derive(Clone, Copy)]
pub struct Said {
    pub number: u32,
    pub caption: bool,
    pub line: u64,
    pub warned: u64,
    pub start: u64,
    pub stop: u64,
    pub at: usize,
    pub size: usize,
}

// The first fault's number and line, and how many captions stand before it.
#[derive(Clone, Copy)]
pub struct Walked {
    pub number: u32,
    pub line: u64,
    pub captions: usize,
}
