// Types that the definitions of caption_stamp name.

// A time that was read, in units, and the mark before its fraction.
#[derive(Clone, Copy)]
pub struct Stamp {
    pub units: u64,
    pub mark: u8,
}
