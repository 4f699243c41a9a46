// The first segment that a caption meets. The map is a flat row of numbers, six to a segment.
ghost use Rattle.std.specs.Prelude.{◌≡◌, ◌&&◌, ◌+◌, ◌*◌, ◌≤◌, leb, length, drop};
ghost use Rattle.spec_map.specs.segment.Segment.{segments_of};
ghost use Rattle.spec_caption.specs.caption_fate.Hit.{meets_parts, met_at, find_from, find_hit, hit_of};
ghost use Rattle.spec_caption.specs.caption_fate.Grouped.{low_at, high_at, within_parts, bounded_from, bounded_by, segments_by, passed_at};
ghost use Rattle.spec_caption.specs.caption_fate.Lost.{lost_rule};
ghost use Rattle.caption_fate.specs.Passing.{four_ended, Passed};

use spec_caption::caption_fate::Met;

// Whether a segment meets the ticks a to b.
// Kept: (2) by `&&` and `||` a search that meets nothing takes half as long again.
pub fn meets(source: u64, duration: u64, a: u64, b: u64) -> bool
    ensures { result ≡ meets_parts source duration a b }
{
    if duration == 0 {
        return false;
    }
    if b <= source {
        return false;
    }
    if a < source {
        return true;
    }
    a - source < duration
}

// The segment at the head of a row.
fn met_at(place: usize, t: &[u64]) -> Met
    ensures { result ≡ met_at place t.now }
{
    Met {
        place,
        source: base::get_or(t, 2, 0),
        output: base::get_or(t, 4, 0),
        duration: base::get_or(t, 5, 0),
    }
}

// Whether a segment ends at or before a.
pub fn ended(source: u64, duration: u64, a: u64) -> bool
    ensures { result ≡ leb (source + duration) a }
{
    source <= a && duration <= a - source
}

// Whether the first four segments of a row end at or before a.
#[tactic(auto, unfolding(crate::specs::Passing::four_ended))]
fn four_ended(t: &[u64], a: u64) -> bool
    ensures { result ≡ four_ended t.now a }
{
    t.len() >= 24
        && ended(t[2], t[5], a)
        && ended(t[8], t[11], a)
        && ended(t[14], t[17], a)
        && ended(t[20], t[23], a)
}

// How many segments, in fours, are passed over at the head of a map: each ends at or before a.
// Kept: (2) over `chunks_exact`, here and in `find_hit`, a search takes 5 to 12 in a hundred longer.
fn passed(map: &[u64], a: u64) -> usize
    ensures { Passed map.now a result }
{
    let mut t = map;
    let mut k = 0;
    while four_ended(t, a) {
        let u = base::rest(t, 24);
        t = u;
        k += 4;
    }
    k
}

// The first segment that meets the ticks a to b, any of 64 bits.
// Kept: (2) over `chunks_exact`, here and in `passed`, a search takes 5 to 12 in a hundred longer.
pub fn find_hit(map: &[u64], a: u64, b: u64) -> Option<Met>
    ensures { result ≡ hit_of (find_hit (segments_of map.now) a b) }
{
    let mut place = passed(map, a);
    let mut t = base::rest(map, 6 * place);
    while 6 <= t.len() {
        if meets(base::get_or(t, 2, 0), base::get_or(t, 5, 0), a, b) {
            let m = met_at(place, t);
            return Some(m);
        }
        let u = base::rest(t, 6);
        t = u;
        place += 1;
    }
    None
}

// Whether a group of 16 segments begins at the place, and its bounds leave nothing that meets the ticks a to b.
// Kept: (2) by `&&` and `||`, here and in `within` and `meets_within`, a search over groups takes a third longer.
fn group_passed(groups: &[u64], place: usize, a: u64, b: u64) -> bool
    ensures { result ≡ passed_at groups.now place a b }
{
    let part = place % 16;
    if part != 0 {
        return false;
    }
    let k = 2 * (place / 16);
    let high = base::get_or(groups, k + 1, 0);
    if high <= a {
        return true;
    }
    let low = base::get_or(groups, k, 0);
    b <= low
}

// Whether a segment lies within two bounds.
// Kept: (2) as in `group_passed`: by `&&` a search over groups takes a third longer.
fn within(source: u64, duration: u64, low: u64, high: u64) -> bool
    ensures { result ≡ within_parts source duration low high }
{
    if source < low {
        return false;
    }
    if high < source {
        return false;
    }
    duration <= high - source
}

// Whether the segment at the place meets the ticks a to b and lies within the bounds of its group.
// Kept: (2) as in `group_passed`: by `&&` a search over groups takes a third longer.
fn meets_within(groups: &[u64], place: usize, source: u64, duration: u64, a: u64, b: u64) -> bool
    ensures { result ≡ (meets_parts source duration a b && within_parts source duration (low_at groups.now place) (high_at groups.now place)) }
{
    if meets(source, duration, a, b) {
        let k = 2 * (place / 16);
        let low = base::get_or(groups, k, 0);
        let high = base::get_or(groups, k + 1, 0);
        return within(source, duration, low, high);
    }
    false
}

// The first segment from the place `from` on that meets the ticks a to b. Groups whose bounds leave none are passed over.
fn find_from(map: &[u64], groups: &[u64], from: usize, a: u64, b: u64) -> Option<Met>
    requires { 6 * from ≤ length map.now }
    ensures { result ≡ hit_of (find_from from (bounded_from groups.now from (segments_of (drop (6 * from) map.now))) a b) }
{
    // Kept: (4) a turn goes on by sixteen segments or by one.
    let mut place = from;
    let mut t = base::rest(map, 6 * from);
    while 6 <= t.len() {
        if group_passed(groups, place, a, b) {
            let v = base::rest(t, 96);
            t = v;
            place += 16;
            continue;
        }
        if meets_within(
            groups,
            place,
            base::get_or(t, 2, 0),
            base::get_or(t, 5, 0),
            a,
            b,
        ) {
            let m = met_at(place, t);
            return Some(m);
        }
        let u = base::rest(t, 6);
        t = u;
        place += 1;
    }
    None
}

// The first segment that meets the ticks a to b, of a map with the bounds of its groups, or without bounds.
pub fn find_by(map: &[u64], groups: &[u64], a: u64, b: u64) -> Option<Met>
    ensures { result ≡ hit_of (find_hit (segments_by groups.now map.now) a b) }
{
    if groups.is_empty() {
        find_hit(map, a, b)
    } else {
        find_from(map, groups, 0, a, b)
    }
}

// Whether one of the segments behind the place meets the ticks a to b, in a map that has bounds.
pub fn met_behind(map: &[u64], groups: &[u64], place: usize, a: u64, b: u64) -> bool
    requires place_in_bounds { 6 * place + 6 ≤ length map.now }
    requires fact { length groups.now ≡ 0 → ⊥ }
    ensures { result ≡ lost_rule (bounded_by groups.now (place + 1) (segments_of (drop (6 * place + 6) map.now))) a b }
{
    find_from(map, groups, place + 1, a, b).is_some()
}
