// The segments of ranges without a fault, written six numbers each.
ghost use Rattle.std.specs.Prelude.{◌≡◌, ◌+◌, ◌-◌, ◌*◌, ◌≤◌, length, take};
ghost use Rattle.std.proofs.lemmas.List.Edits.{sets};
ghost use Rattle.spec_base.specs.base.Limits.{most_frames, most_ticks, most_segments};
ghost use Rattle.spec_base.specs.base.Put.{put};
ghost use Rattle.spec_sheet.specs.sheet_frames.Frames.{decode_of, ticks_from};
ghost use Rattle.spec_map.specs.segment.Segment.{numbers_of, flat_of};
ghost use Rattle.segmap.specs.Milestones.{Carried};
ghost use Rattle.spec_map.specs.segmap.Build.{kept_ticks, ranges_fault, segment_in, segments_in};

use crate::sums::{Reached, at_first, reach};
use order::{DecodeIdx, DisplayIdx};
use segment::Segment;

// A segment, and how far the sum has come with it.
#[derive(Clone, Copy)]
struct Step {
    segment: Segment,
    reached: Reached,
}

// The segment of the range `start` to `end`, whose output starts at `output`.
fn segment_of(
    s: &[u8],
    from: Reached,
    start: DisplayIdx,
    end: DisplayIdx,
    output: u64,
    milestones: &mut [u64],
) -> Step
    requires carried { Carried s.now from.decode.0 from.ticks milestones.old }
    requires start_le_end { (start.0 ≤ end.0) × (decode_of s.now start.0 + (end.0 - start.0) ≤ most_frames) }
    requires start_bound { ticks_from s.now 0 (decode_of s.now start.0 + (end.0 - start.0)) ≤ most_ticks }
    ensures segment_value { (result.segment ≡ segment_in s.now output start.0 end.0) × (result.segment.duration ≤ most_ticks) }
    ensures carried_2 { Carried s.now result.reached.decode.0 result.reached.ticks milestones.new }
{
    let count = order::frame_count(start, end);
    let decode = sheet_frames::decode_at(s, start);
    let first = reach(s, from, decode, milestones);
    let last = reach(s, first.far, DecodeIdx(decode.0 + count), milestones);
    let segment = Segment {
        source_start_frame: start.0,
        source_end_frame: end.0,
        source_start_dts: first.ticks,
        frame_count: count,
        output_start: output,
        duration: last.ticks - first.ticks,
    };
    Step {
        segment,
        reached: last.far,
    }
}

// Writes the six numbers of a segment from the place `at` on.
fn store(map: &mut [u64], at: usize, t: Segment)
    requires { at + 6 ≤ length map.old }
    ensures { map.new ≡ sets map.old at (numbers_of t) }
{
    map[at..at + 6].copy_from_slice(&segment::numbers_of(t));
}

// Writes the segments of the first `count` ranges, which have no fault, and answers their durations together. The milestones are for the sums.
pub fn build(
    s: &[u8],
    n: u32,
    ranges: &[u32],
    count: usize,
    milestones: &mut [u64],
    map: &mut [u64],
) -> u64
    requires milestones_len { length milestones.old ≡ 1025 }
    requires n_le_most_frames { (n ≤ most_frames) × (ticks_from s.now 0 n ≤ most_ticks) × (count ≤ most_segments) × (2 * count ≤ length ranges.now) × (6 * count ≤ length map.old) }
    requires ranges_value { ranges_fault s.now n (take (2 * count) ranges.now) ≡ 0 }
    ensures value { result ≡ kept_ticks s.now (take (2 * count) ranges.now) }
    ensures map_after { map.new ≡ put (flat_of (segments_in s.now 0 (take (2 * count) ranges.now))) map.old }
{
    let mut from = at_first(s, milestones);
    let mut output: u64 = 0;
    for i in 0..count {
        let start = DisplayIdx(ranges[2 * i]);
        let end = DisplayIdx(ranges[2 * i + 1]);
        let step = segment_of(s, from, start, end, output, milestones);
        store(map, 6 * i, step.segment);
        output += step.segment.duration;
        from = step.reached;
    }
    output
}
