// Types that the definitions of segmap name.

// What a call gives: 0 with the sheet's timescale and how many segments were written, or the number of the refusal and zeros.
#[derive(Clone, Copy)]
pub struct Made {
    pub number: u32,
    pub timescale: u32,
    pub count: usize,
}
