// Types that the definitions of map_json_read name.

// A map read: `places` are the numbers written, six to a segment.
#[derive(Clone, Copy)]
pub struct Taken {
    pub number: u32,
    pub timescale: u32,
    pub rate_num: u32,
    pub rate_den: u32,
    pub frames: u32,
    pub places: usize,
    pub path_len: usize,
}
