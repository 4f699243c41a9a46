// Types that the definitions of ask_census name.

// How many starts are shifted, clipped and dropped; where the number is not 0, three zeros.
#[derive(Clone, Copy)]
pub struct StartCounts {
    pub number: u32,
    pub shifted: u64,
    pub clipped: u64,
    pub dropped: u64,
}
