// One closed block.
ghost use Rattle.std.specs.Prelude.{◌≡◌, ◌+◌, ◌≤◌, ◌<◌, ◌^◌, length};
ghost use Rattle.spec_cue.specs.block_timing.Arrow.{timed};
ghost use Rattle.spec_rows.specs.caption_rows.Said.{timing_said, block_said};

use crate::said::{nothing, without};
use block_timing::{after_arrow, before_arrow, end_length, locate};
use refusals::Refusal;
use spec_rows::caption_rows::Said;

// The timing line, on line `number`; `size` bytes of words stand from `at` on.
fn timed(kind: u32, number: u64, line: &[u8], at: usize, size: usize) -> Said
    ensures { result ≡ timing_said kind number line.now at size }
{
    let text = text::text_of(line);
    let behind = after_arrow(text);
    let n = end_length(kind, behind);
    let Some(start) = caption_stamp::read_time(before_arrow(text), kind) else {
        return without(Refusal::BadTime, number);
    };
    let Some(stop) = caption_stamp::read_time(base::front(behind, n), kind) else {
        return without(Refusal::BadTime, number);
    };
    Said {
        number: 0,
        caption: true,
        line: number,
        warned: 0,
        start: start.units,
        stop: stop.units,
        at,
        size,
    }
}

// What a block of SRT or WebVTT gives: `text` is its non-blank lines, `first` the number of the first of them, and `from` where it begins.
pub fn read_block(kind: u32, first: usize, from: usize, text: &[u8]) -> Said
    requires { (1 ≤ kind) × ((first + length text.now < 2 ^ 64) × (from + length text.now < 2 ^ 64)) }
    ensures { result ≡ block_said kind first from text.now }
{
    if let Some(p) = locate(text) {
        let number = first + p.lines;
        let rest = base::rest(text, p.at);
        let line = base::front(rest, p.size);
        let words = base::rest(rest, p.size).len();
        return timed(
            kind,
            number as u64,
            line,
            from + text.len().saturating_sub(words),
            words,
        );
    }
    nothing()
}
