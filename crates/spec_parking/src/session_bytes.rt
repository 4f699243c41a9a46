// Types that the definitions of session_bytes name.
use spec_session::session_state::Head;

// What feed and finish answer: both lengths are those written to the lent output and places, 0 where the call is refused.
#[derive(Clone, Copy)]
pub struct Told {
    pub number: u32,
    pub written: usize,
    pub warned: usize,
}

// The text of a feed: its length, and the numbers of the session.
#[derive(Clone, Copy)]
pub struct TextIn {
    pub number: u32,
    pub length: usize,
    pub head: Head,
}
