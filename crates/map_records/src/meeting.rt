// The first record that a caption meets: event's `find_hit` over records.
ghost use Rattle.std.specs.Prelude.{◌≡◌};
ghost use Rattle.spec_caption.specs.caption_fate.Hit.{meets, find_hit, hit_of};
ghost use Rattle.spec_records.specs.map_records.Records.{hit_at};

use caption_fate::Met;
use segment::Segment;

// Whether a segment meets the ticks a to b.
fn is_met(s: Segment, a: u64, b: u64) -> bool
    ensures { result ≡ meets s a b }
{
    caption_fate::meets(s.source_start_dts, s.duration, a, b)
}

// The answer where the segment s is met.
fn hit_at(place: usize, s: Segment) -> Option<Met>
    ensures { result ≡ hit_at place s }
{
    Some(Met {
        place,
        source: s.source_start_dts,
        output: s.output_start,
        duration: s.duration,
    })
}

// The first record that meets the ticks start to end, any of 64 bits.
pub fn find_hit(map: &[Segment], start: u64, end: u64) -> Option<Met>
    ensures { result ≡ hit_of (find_hit map.now start end) }
{
    for (i, s) in map.iter().enumerate() {
        if is_met(*s, start, end) {
            return hit_at(i, *s);
        }
    }
    None
}
