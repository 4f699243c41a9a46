// Types that the definitions of session name.
use crate::session_state::Session;
use spec_ass::ass_columns::Columns;
use spec_machine::session_counts::Counts;

// What feed and finish hand back: both lengths are those written to the lent output and places.
#[derive(Clone, Copy)]
pub struct Fed {
    pub number: u32,
    pub written: usize,
    pub warned: usize,
    pub session: Session,
}

#[derive(Clone, Copy)]
pub struct Opened {
    pub number: u32,
    pub session: Session,
}

// What the loop carries: the open block's bytes end at `start`, those of the unfinished line at `held`.
#[derive(Clone, Copy)]
pub struct Going {
    pub number: u32,
    pub lines: u32,
    pub counts: Counts,
    pub columns: Columns,
    pub start: usize,
    pub held: usize,
    pub written: usize,
    pub warned: usize,
}
