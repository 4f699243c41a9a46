// Types that the definitions of one_call name.
use spec_machine::session_counts::Counts;

// What the calls told together.
#[derive(Clone, Copy)]
pub struct Ran {
    pub number: u32,
    pub written: usize,
    pub warned: usize,
    pub counts: Counts,
}
