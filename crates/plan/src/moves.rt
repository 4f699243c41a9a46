// Ranges moved to sync frames, in place. A range is two numbers, its start and its end.
ghost use Rattle.std.specs.Prelude.{◌≡◌, ◌+◌, ◌*◌, ◌≤◌, length, take, get_or, set};
ghost use Rattle.spec_base.specs.base.Put.{put};
ghost use Rattle.spec_trim.specs.plan.Snap.{floor_sync, ceil_sync, snap_start, snap_end, snap_all};

use crate::scan::{Known, ceil_first, ceil_sync, floor_first, floor_sync};
use order::DisplayIdx;

// What the range before found: its boundary that moved down, and the one that moved up.
#[derive(Clone, Copy)]
struct Found {
    low: Known,
    high: Known,
}

// Moves the range at `at`: outward (0) its start down and its end up, inward its start up and its end down.
fn snap_at(s: &[u8], n: u32, direction: u32, from: Found, ranges: &mut [u32], at: usize) -> Found
    requires at_in_bounds { at + 2 ≤ length ranges.old }
    requires sync_value { (from.low.sync.0 ≡ floor_sync s.now n from.low.at.0) × (from.high.sync.0 ≡ ceil_sync s.now n from.high.at.0) }
    ensures sync_value_2 { (result.low.sync.0 ≡ floor_sync s.now n result.low.at.0) × (result.high.sync.0 ≡ ceil_sync s.now n result.high.at.0) }
    ensures ranges_after { ranges.new ≡ set (set ranges.old at (snap_start s.now n direction (get_or ranges.old at 0))) (at + 1) (snap_end s.now n direction (get_or ranges.old (at + 1) 0)) }
{
    let start = DisplayIdx(ranges[at]);
    let end = DisplayIdx(ranges[at + 1]);
    if direction == 0 {
        let low = floor_sync(s, n, from.low, start);
        let high = ceil_sync(s, n, from.high, end);
        ranges[at] = low.sync.0;
        ranges[at + 1] = high.sync.0;
        return Found { low, high };
    }
    let high = ceil_sync(s, n, from.high, start);
    let low = floor_sync(s, n, from.low, end);
    ranges[at] = high.sync.0;
    ranges[at + 1] = low.sync.0;
    Found { low, high }
}

// Moves the first `count` ranges; where there are fewer, all of them. A lone number at the end stays.
pub fn snap(s: &[u8], n: u32, direction: u32, ranges: &mut [u32], count: usize)
    ensures { ranges.new ≡ put (snap_all s.now n direction (take (2 * count) ranges.old)) ranges.old }
{
    let mut found = Found {
        low: floor_first(),
        high: ceil_first(n),
    };
    for i in 0..count {
        let at = 2 * i;
        if ranges.len() - at < 2 {
            return;
        }
        found = snap_at(s, n, direction, found, ranges, at);
    }
}
