// Types that the definitions of ask_reason name.
use spec_caption::caption_fate::Counted;

// The number; the fate (Dropped, Shifted or Clipped); the place of the segment that is met, from 0; how many ticks were cut off at each end.
#[derive(Clone, Copy)]
pub struct Why {
    pub number: u32,
    pub fate: Counted,
    pub place: usize,
    pub start_cut: u64,
    pub end_cut: u64,
}
