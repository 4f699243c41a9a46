// Whether the segments of positive length ascend without overlap. The map is a flat row of numbers, six to a segment.
ghost use Rattle.std.specs.Prelude.{◌≡◌, ◌+◌, ltb};
ghost use Rattle.spec_map.specs.segment.Segment.{segments_of};
ghost use Rattle.spec_ask.specs.ask_order.Ascending.{steps_back, after, ascends};

// Whether a start and a duration end after the tick `at`, without their sum.
fn ends_after(start: u64, duration: u64, at: u64) -> bool
    ensures { result ≡ ltb at (start + duration) }
{
    at < start || at - start < duration
}

// Where a segment lies, and how long it is.
#[derive(Clone, Copy, Debug, PartialEq, Eq)]
struct Place {
    source: u64,
    output: u64,
    length: u64,
}

// Whether a segment starts before the end of the last one.
#[tactic(auto, unfolding(spec_ask::specs::ask_order::Ascending::steps_back))]
fn steps_back(last: Place, next: Place) -> bool
    ensures { result ≡ steps_back (last.source + last.length) (last.output + last.length) next.source next.output next.length }
{
    next.length != 0
        && (ends_after(last.source, last.length, next.source)
            || ends_after(last.output, last.length, next.output))
}

// The last segment of positive length: a segment without length changes nothing.
#[tactic(auto, unfolding(spec_ask::specs::ask_order::Ascending::after))]
fn later(last: Place, next: Place) -> Place
    ensures source { result.source ≡ after next.length last.source next.source }
    ensures output { result.output ≡ after next.length last.output next.output }
    ensures length { result.length ≡ after next.length last.length next.length }
{
    if next.length == 0 { last } else { next }
}

// Whether the segments of the map ascend.
pub fn ascends(map: &[u64]) -> bool
    ensures { result ≡ ascends (segments_of map.now) }
{
    let mut last = Place {
        source: 0,
        output: 0,
        length: 0,
    };
    for s in map.chunks_exact(6) {
        let next = Place {
            source: s[2],
            output: s[4],
            length: s[5],
        };
        if steps_back(last, next) {
            return false;
        }
        last = later(last, next);
    }
    true
}
