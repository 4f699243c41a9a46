// The session that a caller keeps between two calls, and its numbers alone.
use spec_ass::ass_columns::Columns;
use spec_caption::caption_fate::Config;
use spec_machine::session_counts::Counts;

// `held` has the bytes that no line or block has taken yet: in ASS the unfinished line; in SRT and WebVTT the open block's lines, then the unfinished line.
// The first `held_len` bytes count. Behind them our calls leave zeros.
#[derive(Clone, Copy)]
pub struct Session {
    pub config: Config,
    pub ended: bool,
    pub outcome: u32,
    pub taken: u32,
    pub lines: u32,
    pub counts: Counts,
    pub columns: Columns,
    pub held_len: usize,
    pub held: [u8; 8192],
}

// The numbers of a session, apart from the bytes that it holds; `held_len` tells how many there are.
#[derive(Clone, Copy)]
pub struct Head {
    pub config: Config,
    pub ended: bool,
    pub outcome: u32,
    pub taken: u32,
    pub lines: u32,
    pub counts: Counts,
    pub columns: Columns,
    pub held_len: usize,
}
