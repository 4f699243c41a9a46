// Types that the definitions of map_json_write name.

// The number, 0 where all is written, and how many bytes were.
#[derive(Clone, Copy)]
pub struct Wrote {
    pub number: u32,
    pub written: usize,
}
