// Types that the definitions of block_cue name.

// The times of a timing line, each with its mark.
#[derive(Clone, Copy)]
pub struct Times {
    pub start: u64,
    pub start_mark: u8,
    pub stop: u64,
    pub stop_mark: u8,
}
