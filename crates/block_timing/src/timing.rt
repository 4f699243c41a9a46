// The timing line of a block, and the parts of its text about the arrow.
ghost use Rattle.std.specs.Prelude.{◌≡◌, ◌≤◌, length, IfSome};
ghost use Rattle.spec_text.specs.pattern.Find.{contains, up_to};
ghost use Rattle.spec_text.specs.text.Line.{lines_of};
ghost use Rattle.spec_cue.specs.block_timing.Style.{srt_end, vtt_end, end_in};
ghost use Rattle.spec_cue.specs.block_timing.Arrow.{arrow, after_arrow};
ghost use Rattle.spec_cue.specs.block_timing.Place.{timing_place};

use spec_cue::block_timing::Place;

fn has_arrow(s: &[u8]) -> bool
    ensures { result ≡ contains arrow s.now }
{
    pattern::has(s, b"-->")
}

pub fn before_arrow(s: &[u8]) -> &[u8]
    ensures { result.now ≡ up_to arrow s.now }
{
    pattern::up_to(s, b"-->")
}

// What follows the arrow and its White_Space.
pub fn after_arrow(s: &[u8]) -> &[u8]
    ensures { result.now ≡ after_arrow s.now }
{
    whitespace::trim_head(pattern::past(s, b"-->"))
}

// SRT's end time: 12 bytes, or all.
fn srt_end(r: &[u8]) -> usize
    ensures { result ≡ srt_end r.now }
{
    if r.len() < 12 || utf8::is_tail(base::get_or(r, 12, 0)) {
        r.len()
    } else {
        12
    }
}

// WebVTT's end time: up to the first space or tab.
fn vtt_end(r: &[u8]) -> usize
    ensures { result ≡ vtt_end r.now }
{
    pattern::find(r, b" ").min(pattern::find(r, b"\t"))
}

// How many bytes of what follows the arrow are the end time.
pub fn end_length(kind: u32, r: &[u8]) -> usize
    ensures { result ≡ end_in kind r.now }
{
    if kind == 2 { vtt_end(r) } else { srt_end(r) }
}

// The first line with an arrow.
pub fn locate(block: &[u8]) -> Option<Place>
    ensures value { result ≡ timing_place (lines_of block.now) 0 0 }
    ensures few { IfSome result (λ p. p.lines ≤ length block.now) }
{
    let mut t = block;
    let mut at = 0;
    let mut lines = 0;
    // Kept: a chain is no plainer: a step is as long as its line, and the place counts bytes and lines.
    while 0 < t.len() {
        let n = text::line_length(t);
        let line = base::front(t, n);
        if has_arrow(text::text_of(line)) {
            return Some(Place { at, size: n, lines });
        }
        t = base::rest(t, n);
        at += n;
        lines += 1;
    }
    None
}
