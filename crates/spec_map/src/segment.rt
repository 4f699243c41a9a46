// Types that the definitions of segment name.

// A stretch of the source that is kept (document 01's stretch), with its place in the output. The fields are the Rust's.
#[derive(Clone, Copy)]
pub struct Segment {
    pub source_start_frame: u32,
    pub source_end_frame: u32,
    pub source_start_dts: u64,
    pub frame_count: u32,
    pub output_start: u64,
    pub duration: u64,
}

// What a survey of a map tells: how many numbers its groups take, and whether all of its numbers are small.
#[derive(Clone, Copy)]
pub struct Surveyed {
    pub count: usize,
    pub small: bool,
}
