// Types that the definitions of ask_delay name.

// The delay, how many captions it loses, how many delays were tried, and by how many captions another can do better at most; where the number is not
// 0, four zeros.
#[derive(Clone, Copy)]
pub struct Delay {
    pub number: u32,
    pub delay: i64,
    pub loss: u32,
    pub tried: u32,
    pub off: u32,
}
