// The map of a sheet and a trim list by way of records of its own: built, searched for a caption, and handed over as flat numbers.
ghost use Rattle.std.specs.Prelude.{◌≡◌, ◌≤◌, length};
ghost use Rattle.spec_base.specs.base.Put.{put};
ghost use Rattle.spec_map.specs.segment.Segment.{flat_of};
ghost use Rattle.spec_map.specs.segmap.Map.{map_of, map_work};
ghost use Rattle.spec_records.specs.map_records_own.Through.{through_of};

use segmap::Made;
use segment::Segment;
use spec_records::map_records_own::Through;

// The same as `through_records`, where the flat numbers have room for every map.
fn through_own(
    sheet: &[u8],
    list: &[u8],
    direction: u32,
    work: &mut [u8],
    start: u64,
    end: u64,
    flat: &mut [u64],
) -> Through
    requires { 6144 ≤ length flat.old }
    ensures { (result ≡ through_of (map_of sheet.now list.now direction 6144 (length work.old)) start end)
        × (work.new ≡ map_work sheet.now direction 6144 work.old)
        × (flat.new ≡ put (flat_of (map_of sheet.now list.now direction 6144 (length work.old)).segments) flat.old) }
{
    let none = Segment {
        source_start_frame: 0,
        source_end_frame: 0,
        source_start_dts: 0,
        frame_count: 0,
        output_start: 0,
        duration: 0,
    };
    let mut map = [none; 1024];
    let made = map_records::build(sheet, list, direction, work, &mut map);
    let records = &map[..made.count];
    let hit = map_records::find_hit(records, start, end);
    // 6,144 places have room for every map, so this is never refused.
    let _ = map_records::flatten(records, flat);
    Through { made, hit }
}

// Makes the map of a sheet and a trim list in records, and writes it as flat numbers from the start of `flat`; with it the segment that the ticks
// start to end meet. Fewer than 6,144 places are 16. A refusal writes nothing there and meets no segment. The work bytes are for the sheet's check.
pub fn through_records(
    sheet: &[u8],
    list: &[u8],
    direction: u32,
    work: &mut [u8],
    start: u64,
    end: u64,
    flat: &mut [u64],
) -> Through
    ensures value { result ≡ through_of (map_of sheet.now list.now direction (length flat.old) (length work.old)) start end }
    ensures work_after { work.new ≡ map_work sheet.now direction (length flat.old) work.old }
    ensures flat_after { flat.new ≡ put (flat_of (map_of sheet.now list.now direction (length flat.old) (length work.old)).segments) flat.old }
{
    if flat.len() < 6 * base::MOST_SEGMENTS {
        return Through {
            made: Made {
                number: 16,
                timescale: 0,
                count: 0,
            },
            hit: None,
        };
    }
    through_own(sheet, list, direction, work, start, end, flat)
}
