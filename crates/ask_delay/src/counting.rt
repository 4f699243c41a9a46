// Losses counted, caption by caption, for every try.
ghost use Rattle.std.specs.Prelude.{◌≡◌, false, ◌≤◌, length};
ghost use Rattle.spec_time.specs.caption_time.Kind.{kind_bad};
ghost use Rattle.spec_time.specs.caption_time.Convert.{timescale_bad};
ghost use Rattle.spec_map.specs.segment.Segment.{segments_of, map_bad};
ghost use Rattle.spec_ask.specs.ask_delay.Loss.{count_lost, any_late};
ghost use Rattle.spec_ask.specs.ask_delay.Tally.{AtMost, Zeros, Counted, Losses};

use crate::looking::lost_at;
use spec_caption::caption_fate::Config;

// One more, where `lost`.
pub fn more(n: u32, lost: bool) -> u32
    requires { n ≤ 4096 }
    ensures { result ≡ count_lost lost n }
{
    n + u32::from(lost)
}

// The grades of one caption looked up: one more for every try that loses it.
fn count_one(grades: &[u8], start: u64, stop: u64, tries: u32, losses: &mut [u32])
    requires { (length grades.now ≡ 12001) × (start ≤ 68719476736) × (stop ≤ 68719476736) × (tries ≤ 12001) × (length losses.old ≡ 12001) × AtMost tries 4096 losses.old }
    ensures { Counted grades.now start stop tries losses.old losses.new }
{
    for k in 0..tries {
        let at = k as usize;
        losses[at] = more(losses[at], lost_at(grades, start, stop, k));
    }
}

// What all captions lose under every try.
pub fn count_all(
    map: &[u64],
    config: Config,
    captions: &[u64],
    tries: u32,
    grades: &mut [u8],
    losses: &mut [u32],
)
    requires { (timescale_bad config.timescale ≡ false) × (kind_bad config.kind ≡ false) × (map_bad map.now ≡ false) × (any_late captions.now ≡ false) × (length captions.now ≤ 8192) × (tries ≤ 12001) × (length grades.old ≡ 12001) × (length losses.old ≡ 12001) × Zeros tries losses.old }
    ensures { Losses config (segments_of map.now) captions.now tries losses.new }
{
    for c in captions.chunks_exact(2) {
        crate::painting::paint(map, config, c[0], c[1], grades);
        count_one(grades, c[0], c[1], tries, losses);
    }
}
