// The map of a sheet and a trim list, written into lent records.
ghost use Rattle.std.specs.Prelude.{◌≡◌, ◌+◌, ◌*◌, ◌≤◌, length, take};
ghost use Rattle.spec_map.specs.segment.Segment.{segments_of};
ghost use Rattle.spec_map.specs.segmap.Map.{made_of};
ghost use Rattle.spec_records.specs.map_records.Records.{recorded, map_into, bytes_into, segment_at, narrowed};

use segmap::Made;
use segment::Segment;

// The segment whose six numbers stand from the place `at` on.
fn segment_of(flat: &[u64], at: usize) -> Segment
    requires { at + 6 ≤ length flat.now }
    ensures { result ≡ segment_at flat.now at }
{
    Segment {
        source_start_frame: (flat[at] % 4294967296) as u32,
        source_end_frame: (flat[at + 1] % 4294967296) as u32,
        source_start_dts: flat[at + 2],
        frame_count: (flat[at + 3] % 4294967296) as u32,
        output_start: flat[at + 4],
        duration: flat[at + 5],
    }
}

// Writes the first `count` segments of flat numbers.
fn fill(flat: &[u64], count: usize, map: &mut [Segment])
    requires { (6 * count ≤ length flat.now) × (count ≤ length map.old) }
    ensures { map.new ≡ recorded (narrowed (segments_of (take (6 * count) flat.now))) map.old }
{
    for i in 0..count {
        map[i] = segment_of(flat, 6 * i);
    }
}

// Makes the map of a sheet and a trim list, and writes it to the first records of `map`. A refusal writes nothing there. The work bytes are for the
// sheet's check.
pub fn build(
    sheet: &[u8],
    list: &[u8],
    direction: u32,
    work: &mut [u8],
    map: &mut [Segment],
) -> Made
    ensures { (result ≡ made_of (map_into sheet.now list.now direction map.old (length work.old)))
        × (work.new ≡ bytes_into sheet.now direction map.old work.old)
        × (map.new ≡ recorded (map_into sheet.now list.now direction map.old (length work.old)).segments map.old) }
{
    if map.len() < base::MOST_SEGMENTS {
        return Made {
            number: 16,
            timescale: 0,
            count: 0,
        };
    }
    // Kept: (1) no heap: the memory is fixed.
    let mut flat = [0; 6144];
    let made = segmap::make(sheet, list, direction, work, &mut flat);
    fill(&flat, made.count, map);
    made
}
