// Types that the definitions of ask_edges name.

// A caption read as s to e meets the segment where s < till and from <= e, and lies in it whole where low <= s and e < high.
#[derive(Clone, Copy)]
pub struct Edge {
    pub till: u64,
    pub from: u64,
    pub low: u64,
    pub high: u64,
}
