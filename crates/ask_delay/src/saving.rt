// Captions that no delay can save.
ghost use Rattle.std.specs.Prelude.{◌≡◌, false, ◌≤◌, length};
ghost use Rattle.spec_time.specs.caption_time.Kind.{kind_bad};
ghost use Rattle.spec_time.specs.caption_time.Convert.{timescale_bad};
ghost use Rattle.spec_map.specs.segment.Segment.{segments_of};
ghost use Rattle.spec_ask.specs.ask_delay.Loss.{exceeds_all, too_long, any_late, floor_of};

use crate::counting::more;
use spec_caption::caption_fate::Config;

// Whether n ticks exceed every segment's duration.
fn exceeds_all(map: &[u64], n: u64) -> bool
    ensures { result ≡ exceeds_all n (segments_of map.now) }
{
    // Kept: (3) `map.chunks_exact(6).all(|s| s[5] < n)` was tried: what the closure answered of each chunk did not reach the clause.
    for s in map.chunks_exact(6) {
        if n <= s[5] {
            return false;
        }
    }
    true
}

// Whether a caption is longer than every segment.
fn too_long(map: &[u64], config: Config, start: u64, stop: u64) -> bool
    requires { (timescale_bad config.timescale ≡ false) × (kind_bad config.kind ≡ false) × (stop ≤ 68719476736) }
    ensures { result ≡ too_long config (segments_of map.now) start stop }
{
    start < stop
        && exceeds_all(
            map,
            caption_time::core_ticks(stop - start, config.timescale, config.kind),
        )
}

pub fn floor_of(map: &[u64], config: Config, captions: &[u64]) -> u32
    requires { (timescale_bad config.timescale ≡ false) × (kind_bad config.kind ≡ false) × (any_late captions.now ≡ false) × (length captions.now ≤ 8192) }
    ensures { result ≡ floor_of config (segments_of map.now) captions.now }
{
    let mut n = 0;
    for c in captions.chunks_exact(2) {
        n = more(n, too_long(map, config, c[0], c[1]));
    }
    n
}
