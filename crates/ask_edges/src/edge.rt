// The edges of a segment in units of a kind.
ghost use Rattle.std.specs.Prelude.{◌≡◌};
ghost use Rattle.spec_ask.specs.ask_edges.Edge.{edge_within};

use spec_ask::ask_edges::Edge;

// The edges of a segment; those that no caption meets where it has no length.
pub fn edge_at(source: u64, duration: u64, timescale: u32, kind: u32) -> Edge
    ensures { result ≡ edge_within kind timescale source duration }
{
    if duration == 0 || segment::end_bad(source, duration) {
        return Edge {
            till: 0,
            from: 0,
            low: 0,
            high: 0,
        };
    }
    let last = source + duration;
    Edge {
        till: caption_time::core_end(last, timescale, kind),
        from: caption_time::core_end(source + 1, timescale, kind),
        low: caption_time::core_end(source, timescale, kind),
        high: caption_time::core_end(last + 1, timescale, kind),
    }
}
