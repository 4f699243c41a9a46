// The whole call: from the bytes of a sheet and of a trim list to a map.
ghost use Rattle.std.specs.Prelude.{◌≡◌, ◌*◌, ◌≤◌, length, take};
ghost use Rattle.refusals.specs.Numbers.{number_of, told};
ghost use Rattle.spec_base.specs.base.Limits.{most_frames, most_ticks, most_places, most_segments};
ghost use Rattle.spec_base.specs.base.Put.{put};
ghost use Rattle.spec_sheet.specs.sheet_frames.Frames.{frames_of, timescale_of, ticks_from};
ghost use Rattle.spec_sheet.specs.sheet.Sheet.{sheet_fault};
ghost use Rattle.spec_map.specs.segment.Segment.{flat_of};
ghost use Rattle.spec_map.specs.segmap.Build.{kept_number, segments_in};
ghost use Rattle.spec_map.specs.segmap.Map.{ranges_for, kept_of, made, made_of, cut_of, map_of, map_work};
ghost use Rattle.trim.specs.Answer.{parsed_told};
ghost use Rattle.segmap.specs.Answer.{made_told};

use crate::building::build;
use crate::faults::ranges_fault;
use refusals::Refusal;
use spec_map::segmap::Made;

fn refused(r: Refusal) -> Made
    ensures { result ≡ made (number_of r) 0 0 }
{
    Made {
        number: u32::from(r),
        timescale: 0,
        count: 0,
    }
}

// The call's answer on a sheet with the timescale: the count of segments, or the refusal.
fn answered(timescale: u32, kept: Result<usize, Refusal>) -> Made
    ensures { result ≡ made_told timescale kept }
{
    match kept {
        Err(r) => refused(r),
        Ok(count) => Made {
            number: 0,
            timescale,
            count,
        },
    }
}

// Tests snapped ranges, all pairs first (8), then range by range (9, 10), then the sum of their durations (26), and writes their segments where
// there is no fault. The sum is known once they are built, so they are built apart.
fn keep(s: &[u8], n: u32, ranges: &[u32], count: usize, map: &mut [u64]) -> Result<(), Refusal>
    requires { (n ≤ most_frames) × (ticks_from s.now 0 n ≤ most_ticks) × (count ≤ most_segments) × (2 * count ≤ length ranges.now) × (6 * most_segments ≤ length map.old) }
    ensures value { told result ≡ kept_number s.now n (take (2 * count) ranges.now) }
    ensures map_after { told result ≡ 0 → map.new ≡ put (flat_of (segments_in s.now 0 (take (2 * count) ranges.now))) map.old }
    ensures map_unchanged { (told result ≡ 0 → ⊥) → map.new ≡ map.old }
{
    plan::overlap(ranges, count)?;
    ranges_fault(s, n, ranges, count)?;
    // Kept: (1) no heap: the memory is fixed.
    let mut held = [0; 6144];
    let mut milestones = [0; 1025];
    let sum = build(s, n, ranges, count, &mut milestones, &mut held);
    if base::MOST_TICKS < sum {
        return Err(Refusal::TooManyTicks);
    }
    map[..6 * count].copy_from_slice(&held[..6 * count]);
    Ok(())
}

// Reads the list into `ranges`: a blank one has the range of all n frames.
fn ranges_of(list: &[u8], n: u32, ranges: &mut [u32]) -> Result<usize, Refusal>
    requires { most_places ≤ length ranges.old }
    ensures value { parsed_told result ≡ kept_of list.now }
    ensures ranges_after { told result ≡ 0 → take (2 * (parsed_told result).count) ranges.new ≡ ranges_for n list.now }
{
    let count = trim::parse(list, ranges)?;
    if count != 0 {
        return Ok(count);
    }
    ranges[0] = 0;
    ranges[1] = n;
    Ok(1)
}

// Reads the list into `ranges`, snaps them and writes their segments, of a sheet without a fault.
fn map_ranges(
    s: &[u8],
    n: u32,
    list: &[u8],
    direction: u32,
    ranges: &mut [u32],
    map: &mut [u64],
) -> Result<usize, Refusal>
    requires s_value { (sheet_fault s.now ≡ 0) × (n ≡ frames_of s.now) × (ticks_from s.now 0 n ≤ most_ticks) }
    requires direction_bound { (direction ≤ 1) × (most_places ≤ length ranges.old) × (6 * most_segments ≤ length map.old) }
    ensures value { made_told (timescale_of s.now) result ≡ made_of (cut_of s.now list.now direction) }
    ensures map_after { map.new ≡ put (flat_of (cut_of s.now list.now direction).segments) map.old }
{
    let count = ranges_of(list, n, ranges)?;
    plan::snap(s, n, direction, ranges, count);
    keep(s, n, ranges, count, map)?;
    Ok(count)
}

// Makes the map of a sheet and a trim list, and writes it from the start of `map`, six numbers to a segment. A refusal writes nothing there.
// The work bytes are for the sheet's check.
pub fn make(sheet: &[u8], list: &[u8], direction: u32, work: &mut [u8], map: &mut [u64]) -> Made
    ensures value { result ≡ made_of (map_of sheet.now list.now direction (length map.old) (length work.old)) }
    ensures work_after { work.new ≡ map_work sheet.now direction (length map.old) work.old }
    ensures map_after { map.new ≡ put (flat_of (map_of sheet.now list.now direction (length map.old) (length work.old)).segments) map.old }
{
    if map.len() < 6 * base::MOST_SEGMENTS || 1 < direction {
        return refused(Refusal::BadArgument);
    }
    match sheet::check(sheet, work) {
        Err(r) => refused(r),
        Ok(h) => {
            // Kept: (1) no heap: the memory is fixed.
            let mut ranges = [0; base::MOST_PLACES];
            answered(
                h.timescale,
                map_ranges(sheet, h.frames, list, direction, &mut ranges, map),
            )
        }
    }
}
