// A segment of the map, and the limits of a map given as flat numbers, six to a segment.
ghost use Rattle.std.specs.Prelude.{◌≡◌, ◌^◌, ◌≤◌, nat_lt};
ghost use Rattle.spec_map.specs.segment.Segment.{numbers_of, segments_of, end_bad, any_bad, map_bad};

use spec_map::segment::Segment;

// The six numbers of a segment, as a map has them.
pub fn numbers_of(s: Segment) -> [u64; 6]
    ensures { result ≡ numbers_of s }
{
    [
        u64::from(s.source_start_frame),
        u64::from(s.source_end_frame),
        s.source_start_dts,
        u64::from(s.frame_count),
        s.output_start,
        s.duration,
    ]
}

// Whether a start and a duration pass the tick limit together.
pub fn end_bad(start: u64, duration: u64) -> bool
    ensures { result ≡ end_bad start duration }
{
    base::MOST_TICKS < start || base::MOST_TICKS - start < duration
}

// Twice the tick limit.
const TWICE: u64 = 18014398509481984;

// 0 where a start and a duration end within the tick limit. Quotients instead of tests: the loop over a map then has no branch.
fn past(start: u64, duration: u64) -> u64
    ensures result_value { nat_lt 0 result ≡ end_bad start duration }
    ensures upper_bound { result ≤ 3072 }
{
    let end = start.wrapping_add(duration);
    let far = end.wrapping_add(base::MOST_TICKS - 1);
    start / TWICE + duration / TWICE + far / TWICE
}

// 0 where the six numbers of a segment break no limit.
fn excess(numbers: &[u64; 6]) -> u64
    ensures result_value { nat_lt 0 result ≡ any_bad (segments_of numbers.now) }
    ensures upper_bound { result ≤ 2 ^ 34 }
{
    let [first, last, source, frames, output, duration] = *numbers;
    let frames_past = first / 4294967296 + last / 4294967296 + frames / 4294967296;
    frames_past + past(source, duration) + past(output, duration)
}

// Whether a map breaks a limit: no whole number of segments, more than 1,024, or a segment out of range.
pub fn map_bad(map: &[u64]) -> bool
    ensures { result ≡ map_bad map.now }
{
    let (segments, rest) = map.as_chunks::<6>();
    if !rest.is_empty() || base::MOST_SEGMENTS < segments.len() {
        return true;
    }
    let mut total = 0;
    for numbers in segments {
        total += excess(numbers);
    }
    0 < total
}
