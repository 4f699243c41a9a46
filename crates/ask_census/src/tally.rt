// Starts counted segment by segment, through a map that ascends.
ghost use Rattle.std.specs.Prelude.{◌≡◌, true, false, ◌≤◌};
ghost use Rattle.spec_time.specs.caption_time.Kind.{kind_bad, units_of};
ghost use Rattle.spec_time.specs.caption_time.Convert.{timescale_bad};
ghost use Rattle.spec_map.specs.segment.Segment.{segments_of, map_bad};
ghost use Rattle.spec_ask.specs.ask_order.Ascending.{ascends};
ghost use Rattle.spec_ask.specs.ask_edges.Edge.{edges_of};
ghost use Rattle.spec_ask.specs.ask_edges.Count.{starts_in, kept_fast, whole_fast};
ghost use Rattle.spec_ask.specs.ask_census.Census.{most_starts};

// Starts that are kept, and starts that are kept whole.
#[derive(Clone, Copy, Debug, PartialEq, Eq)]
pub struct Tally {
    pub kept: u64,
    pub whole: u64,
}

// How many numbers from `lo` up to `hi`, `hi` excluded, lie below `n`.
fn within(lo: u64, hi: u64, n: u64) -> u64
    ensures { result ≡ starts_in lo hi n }
{
    n.min(hi).saturating_sub(n.min(lo))
}

// The starts below `count` of captions `length` units long that are kept, and those that are kept whole.
pub fn count_starts(map: &[u64], timescale: u32, kind: u32, length: u64, count: u64) -> Tally
    requires { (timescale_bad timescale ≡ false) × (kind_bad kind ≡ false) × (map_bad map.now ≡ false) × (ascends (segments_of map.now) ≡ true) × (count ≤ most_starts) }
    ensures { (result.kept ≡ kept_fast (edges_of timescale (units_of kind) (segments_of map.now)) 0 length count) × (result.whole ≡ whole_fast (edges_of timescale (units_of kind) (segments_of map.now)) 0 length count) }
{
    let mut till: u64 = 0;
    let mut kept = 0;
    let mut whole = 0;
    for s in map.chunks_exact(6) {
        let e = ask_edges::edge_at(s[2], s[5], timescale, kind);
        let first = till.max(e.from.saturating_sub(length));
        let last = e.till.min(e.high.saturating_sub(length));
        kept += within(first, e.till, count);
        whole += within(first.max(e.low), last, count);
        till = till.max(e.till);
    }
    Tally { kept, whole }
}
