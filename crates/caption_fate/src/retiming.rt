// What becomes of a caption: dropped, or cut to the first segment that it meets and moved.
ghost use Rattle.std.specs.Prelude.{◌≡◌, true, false, ◌&&◌, ◌+◌, ◌*◌, ◌≤◌, min, max, length, drop};
ghost use Rattle.spec_time.specs.caption_time.Convert.{start_within, end_within};
ghost use Rattle.spec_map.specs.segment.Segment.{segments_of, end_bad};
ghost use Rattle.spec_caption.specs.caption_fate.Hit.{meets_parts};
ghost use Rattle.spec_caption.specs.caption_fate.Grouped.{bounded_by, segments_by};
ghost use Rattle.spec_caption.specs.caption_fate.Lost.{lost_rule};
ghost use Rattle.spec_caption.specs.caption_fate.Decide.{retimed_by, decide_in};

use spec_caption::caption_fate::{Config, Decision, Met, Retimed};

// Whether one of the segments meets the ticks a to b: the part-lost rule of those behind the one that is hit.
fn lost_rule(behind: &[u64], a: u64, b: u64) -> bool
    ensures { result ≡ lost_rule (segments_of behind.now) a b }
{
    crate::meeting::find_hit(behind, a, b).is_some()
}

// The same of the segments behind the place, with the bounds of their groups or without bounds.
fn lost_behind(map: &[u64], groups: &[u64], place: usize, a: u64, b: u64) -> bool
    requires { 6 * place + 6 ≤ length map.now }
    ensures { result ≡ lost_rule (bounded_by groups.now (place + 1) (segments_of (drop (6 * place + 6) map.now))) a b }
{
    if groups.is_empty() {
        lost_rule(&map[6 * place + 6..], a, b)
    } else {
        crate::meeting::met_behind(map, groups, place, a, b)
    }
}

// The end was cut, and a part of the caption was lost by it: `place` is that of the segment that was hit.
fn lost_part(cut: bool, map: &[u64], groups: &[u64], place: usize, a: u64, b: u64) -> bool
    requires { 6 * place + 6 ≤ length map.now }
    ensures { result ≡ (cut && lost_rule (bounded_by groups.now (place + 1) (segments_of (drop (6 * place + 6) map.now))) a b) }
{
    cut && lost_behind(map, groups, place, a, b)
}

// A caption of ticks a to b that the segment x meets, within the limits.
fn retime(x: Met, map: &[u64], groups: &[u64], config: Config, a: u64, b: u64) -> Retimed
    requires place_in_bounds { 6 * x.place + 6 ≤ length map.now }
    requires b_value { (meets_parts x.source x.duration a b ≡ true) × (end_bad x.source x.duration ≡ false) × (end_bad x.output x.duration ≡ false) }
    ensures { result ≡ retimed_by (start_within config.kind config.timescale) (end_within config.kind config.timescale) a b (lost_rule (bounded_by groups.now (x.place + 1) (segments_of (drop (6 * x.place + 6) map.now))) a b) x }
{
    let source = x.source;
    let output = x.output;
    let last = source + x.duration;
    let from = output + (a.max(source) - source);
    let to = output + (b.min(last) - source);
    let end_cut = last < b;
    Retimed {
        start: caption_time::core_start(from, config.timescale, config.kind),
        stop: caption_time::core_end(to, config.timescale, config.kind),
        start_cut: a < source,
        end_cut,
        lost: lost_part(end_cut, map, groups, x.place, a, b),
    }
}

// What becomes of a caption read as s to e, in units, by a map with the bounds of its groups, or without bounds.
pub fn decide(map: &[u64], groups: &[u64], config: Config, s: u64, e: u64) -> Decision
    ensures { result ≡ decide_in config (segments_by groups.now map.now) s e }
{
    let from = caption_time::core_ticks(s, config.timescale, config.kind);
    let to = caption_time::core_ticks(e, config.timescale, config.kind);
    match crate::meeting::find_by(map, groups, from, to) {
        None => Decision::Dropped,
        Some(x) => {
            if segment::end_bad(x.source, x.duration) || segment::end_bad(x.output, x.duration) {
                return Decision::Strange;
            }
            Decision::Kept(retime(x, map, groups, config, from, to))
        }
    }
}
