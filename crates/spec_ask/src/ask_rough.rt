// Types that the definitions of ask_rough name.

// Kept at every choice of start and end, dropped at every one, or kept at one and dropped at another; or the number of a refusal.
#[derive(Clone, Copy)]
pub enum Judged {
    Refused(u32),
    SurelyKept,
    SurelyDropped,
    Unsure,
}
