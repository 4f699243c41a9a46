// The fate of one caption over the window of delays, segment by segment.
ghost use Rattle.std.specs.Prelude.{◌≡◌, false, ◌^◌, ◌≤◌, length};
ghost use Rattle.spec_time.specs.caption_time.Kind.{kind_bad, units_of};
ghost use Rattle.spec_time.specs.caption_time.Convert.{timescale_bad};
ghost use Rattle.spec_map.specs.segment.Segment.{segments_of, map_bad};
ghost use Rattle.spec_ask.specs.ask_edges.Edge.{edges_of};
ghost use Rattle.spec_ask.specs.ask_delay.Paint.{Filled, Painted, Window};

use ask_edges::Edge;
use spec_caption::caption_fate::Config;

const REACH: u64 = 6000;

const WINDOW: u64 = 12001;

// Writes v from the place lo up to hi, hi excluded.
fn fill(grades: &mut [u8], lo: u64, hi: u64, v: u8)
    requires { hi ≤ length grades.old }
    ensures { Filled lo hi v grades.old grades.new }
{
    if lo < hi {
        grades[lo as usize..hi as usize].fill(v);
    }
}

// One segment over the grades: 1 where the moved caption meets it, 2 where it also lies in it whole.
pub fn paint_one(grades: &mut [u8], e: Edge, start: u64, stop: u64)
    requires { (length grades.old ≡ 12001) × (e.till ≤ 2 ^ 63) × (e.from ≤ 2 ^ 63) × (e.low ≤ 2 ^ 63) × (e.high ≤ 2 ^ 63) }
    ensures { Painted e start stop grades.old grades.new }
{
    let lo = (e.from + REACH).saturating_sub(stop);
    let hi = WINDOW.min((e.till + REACH).saturating_sub(start));
    let first = lo.max((e.low + REACH).saturating_sub(start));
    let last = hi.min((e.high + REACH).saturating_sub(stop));
    fill(grades, lo, hi, 1);
    fill(grades, first, last, 2);
}

// The fate of a caption over the window: every segment, the last one first, so that an earlier one paints over the later ones.
pub fn paint(map: &[u64], config: Config, start: u64, stop: u64, grades: &mut [u8])
    requires { (length grades.old ≡ 12001) × (timescale_bad config.timescale ≡ false) × (kind_bad config.kind ≡ false) × (map_bad map.now ≡ false) }
    ensures { Window (edges_of config.timescale (units_of config.kind) (segments_of map.now)) start stop grades.new }
{
    fill(grades, 0, WINDOW, 0);
    for s in map.chunks_exact(6).rev() {
        let e = ask_edges::edge_at(s[2], s[5], config.timescale, config.kind);
        paint_one(grades, e, start, stop);
    }
}
