// Types that the definitions of session_counts name.

#[derive(Clone, Copy)]
pub struct Counts {
    pub shifted: u32,
    pub clipped: u32,
    pub dropped: u32,
    pub passed: u32,
}
