// Types that the definitions of sheet name.

// Block 0's values.
#[derive(Clone, Copy)]
pub struct Head {
    pub timescale: u32,
    pub frames: u32,
    pub rate_num: u32,
    pub rate_den: u32,
}
