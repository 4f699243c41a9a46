// The nearest sync frame, looked for from what the boundary before it found: where boundaries ascend, no frame is looked at twice.
ghost use Rattle.std.specs.Prelude.{◌≡◌, ◌+◌, ◌≤◌, min};
ghost use Rattle.spec_trim.specs.plan.Snap.{floor_sync, ceil_sync};

use order::DisplayIdx;

// A boundary, and the sync frame found for it.
#[derive(Clone, Copy)]
pub struct Known {
    pub at: DisplayIdx,
    pub sync: DisplayIdx,
}

// The last sync frame at or before the first frame: 0, whatever the sheet.
pub fn floor_first() -> Known
    ensures { (result.at.0 ≡ 0) × (result.sync.0 ≡ 0) }
{
    Known {
        at: DisplayIdx(0),
        sync: DisplayIdx(0),
    }
}

// The first sync frame at or after the end: n, whatever the sheet.
pub fn ceil_first(n: u32) -> Known
    ensures { (result.at.0 ≡ n) × (result.sync.0 ≡ n) }
{
    Known {
        at: DisplayIdx(n),
        sync: DisplayIdx(n),
    }
}

// How many of n frames are at or before x.
fn upto(n: u32, x: DisplayIdx) -> u32
    ensures { result ≡ min (x.0 + 1) n }
{
    x.0.saturating_add(1).min(n)
}

// The last sync frame at or before x: looked for down to a boundary whose own is known.
fn floor_from(s: &[u8], n: u32, from: Known, x: DisplayIdx) -> DisplayIdx
    requires { (from.sync.0 ≡ floor_sync s.now n from.at.0) × (from.at.0 ≤ x.0) }
    ensures { result.0 ≡ floor_sync s.now n x.0 }
{
    let low = upto(n, from.at);
    for k in (low..upto(n, x)).rev() {
        if sheet_frames::sync_at(s, DisplayIdx(k)) {
            return DisplayIdx(k);
        }
    }
    from.sync
}

// The last sync frame at or before x, else 0. A boundary below the one before is looked for down to the first frame.
pub fn floor_sync(s: &[u8], n: u32, from: Known, x: DisplayIdx) -> Known
    requires { from.sync.0 ≡ floor_sync s.now n from.at.0 }
    ensures { (result.at.0 ≡ x.0) × (result.sync.0 ≡ floor_sync s.now n x.0) }
{
    let known = if x.0 < from.at.0 { floor_first() } else { from };
    Known {
        at: x,
        sync: floor_from(s, n, known, x),
    }
}

// The first sync frame at or after x, looked for up to the end.
fn ceil_from(s: &[u8], n: u32, x: DisplayIdx) -> DisplayIdx
    ensures { result.0 ≡ ceil_sync s.now n x.0 }
{
    for k in x.0..n {
        if sheet_frames::sync_at(s, DisplayIdx(k)) {
            return DisplayIdx(k);
        }
    }
    DisplayIdx(n)
}

// The first sync frame at or after x, else n: that of the boundary before, where x does not lie outside of these two.
pub fn ceil_sync(s: &[u8], n: u32, from: Known, x: DisplayIdx) -> Known
    requires { from.sync.0 ≡ ceil_sync s.now n from.at.0 }
    ensures { (result.at.0 ≡ x.0) × (result.sync.0 ≡ ceil_sync s.now n x.0) }
{
    let sync = if from.at.0 <= x.0 && x.0 <= from.sync.0 {
        from.sync
    } else {
        ceil_from(s, n, x)
    };
    Known { at: x, sync }
}
