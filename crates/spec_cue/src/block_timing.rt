// Types that the definitions of block_timing name.

// Where the timing line stands in a block: its first byte, its length, and how many lines are before it.
#[derive(Clone, Copy)]
pub struct Place {
    pub at: usize,
    pub size: usize,
    pub lines: usize,
}
