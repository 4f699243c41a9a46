// Types that the definitions of order name.

// A frame's place in display order.
#[derive(Clone, Copy)]
pub struct DisplayIdx(pub u32);

// A frame's place in decode order.
#[derive(Clone, Copy)]
pub struct DecodeIdx(pub u32);
