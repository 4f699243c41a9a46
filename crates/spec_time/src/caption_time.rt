// Types that the definitions of caption_time name.

// What a lone conversion hands back: 0 and the value, or the number of its refusal and 0.
#[derive(Clone, Copy)]
pub struct Converted {
    pub number: u32,
    pub value: u64,
}
