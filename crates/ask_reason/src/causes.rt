// Why each segment of a map is not met.
ghost use Rattle.std.specs.Prelude.{◌≡◌, ◌+◌, ◌/◌, ◌≤◌, length};
ghost use Rattle.spec_base.specs.base.Put.{put};
ghost use Rattle.spec_map.specs.segment.Segment.{segments_of};
ghost use Rattle.spec_ask.specs.ask_reason.Reason.{cause_parts, causes_of};

// The first cause that applies, or 0 where the segment is met.
#[tactic(auto, unfolding(spec_ask::specs::ask_reason::Reason::cause_parts))]
fn cause(source: u64, duration: u64, a: u64, b: u64) -> u64
    ensures { result ≡ cause_parts source duration a b }
{
    // Kept: (1) `fill` writes these numbers for the C caller, and its clause names them.
    if duration == 0 {
        1
    } else if caption_fate::ended(source, duration, a) {
        2
    } else if b <= source {
        3
    } else {
        0
    }
}

// Writes the causes of all segments to the start of `places`.
pub fn fill(map: &[u64], a: u64, b: u64, places: &mut [u64])
    requires { length map.now / 6 ≤ length places.old }
    ensures { places.new ≡ put (causes_of (segments_of map.now) a b) places.old }
{
    let (segments, _) = map.as_chunks::<6>();
    for (i, s) in segments.iter().enumerate() {
        places[i] = cause(s[2], s[5], a, b);
    }
}
