// Types that the definitions of parking name.
use spec_session::session_state::{Head, Session};

#[derive(Clone, Copy)]
pub struct TakenUp {
    pub number: u32,
    pub session: Session,
}

// A session by its numbers.
#[derive(Clone, Copy)]
pub struct TakenIn {
    pub number: u32,
    pub head: Head,
}
