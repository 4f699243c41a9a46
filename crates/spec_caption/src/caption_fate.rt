// Types that the definitions of caption_fate name.

// A segment that is met, and its place in the list from 0.
#[derive(Clone, Copy)]
pub struct Met {
    pub place: usize,
    pub source: u64,
    pub output: u64,
    pub duration: u64,
}

// A caption that is kept: its new times in units, which of them was cut, whether a part was lost (warning 4).
#[derive(Clone, Copy)]
pub struct Retimed {
    pub start: u64,
    pub stop: u64,
    pub start_cut: bool,
    pub end_cut: bool,
    pub lost: bool,
}

// Strange: the segment that is met ends past the tick limit, so that the map is a bad one.
#[derive(Clone, Copy)]
pub enum Decision {
    Strange,
    Dropped,
    Kept(Retimed),
}

// The kind (0 ASS, 1 SRT, 2 WebVTT) and the ticks a second.
#[derive(Clone, Copy)]
pub struct Config {
    pub kind: u32,
    pub timescale: u32,
}

// How a caption is counted; Nothing: there is none.
#[derive(Clone, Copy)]
pub enum Counted {
    Nothing,
    Passed,
    Dropped,
    Shifted,
    Clipped,
}

// The number, how it is counted, and how many bytes and warning places were written.
#[derive(Clone, Copy)]
pub struct Told {
    pub number: u32,
    pub counted: Counted,
    pub written: usize,
    pub warned: usize,
}
