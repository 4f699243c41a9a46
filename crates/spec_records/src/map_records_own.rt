// Types that the definitions of map_records_own name.
use spec_caption::caption_fate::Met;
use spec_map::segmap::Made;

// What the map call answers, and the segment that a caption meets.
#[derive(Clone, Copy)]
pub struct Through {
    pub made: Made,
    pub hit: Option<Met>,
}
