// The new line of a caption that is kept, written piece by piece into the rest of the output.
ghost use Rattle.std.specs.Prelude.{◌≡◌, ◌≤◌, length};
ghost use Rattle.spec_time.specs.caption_stamp.Write.{time_text};
ghost use Rattle.spec_ass.specs.ass_columns.Columns.{fields};
ghost use Rattle.spec_ass.specs.ass_write.Frame.{piece_at, field_pieces, line_frame, piece_text, frame_placed, frame_after};

use ass_columns::{Columns, field_length};

// Two times in units, each with the mark before its fraction.
#[derive(Clone, Copy)]
pub struct Times {
    pub start: u64,
    pub start_mark: u8,
    pub stop: u64,
    pub stop_mark: u8,
}

// The texts of two times.
#[derive(Clone, Copy)]
struct Texts<'a> {
    start: &'a [u8],
    stop: &'a [u8],
}

// The text of the column at place `k`: its field, or a time in its place.
fn column_text<'a>(field: &'a [u8], k: usize, columns: Columns, texts: Texts<'a>) -> &'a [u8]
    ensures { result.now ≡ piece_text texts.entry.start.now texts.entry.stop.now (piece_at columns.start columns.«end» k field.now) }
{
    if k == columns.end {
        texts.stop
    } else if k == columns.start {
        texts.start
    } else {
        field
    }
}

// The fields from the place `from` on, with commas between them and the two times in their columns.
fn write_fields(out: &mut [u8], from: usize, rest: &[u8], columns: Columns, texts: Texts) -> usize
    requires { from ≤ length out.old }
    ensures { (result ≡ frame_after texts.entry.start.now texts.entry.stop.now from (field_pieces columns.start columns.«end» 1 (fields columns.columns rest.now)) out.old) × (out.new ≡ frame_placed texts.entry.start.now texts.entry.stop.now from (field_pieces columns.start columns.«end» 1 (fields columns.columns rest.now)) out.old) }
{
    let mut at = from;
    let mut t = rest;
    for k in 0..columns.columns {
        let n = field_length(t, columns.columns - k);
        let text = column_text(base::front(t, n), k + 1, columns, texts);
        at += base::put(&mut out[at..], text);
        if t.len() <= n {
            return at;
        }
        at += base::put(&mut out[at..], b",");
        t = base::rest(t, n + 1);
    }
    at
}

// The word, the fields and the terminator.
fn write_line(
    out: &mut [u8],
    word: &[u8],
    rest: &[u8],
    ending: &[u8],
    columns: Columns,
    texts: Texts,
) -> usize
    ensures { (result ≡ frame_after texts.entry.start.now texts.entry.stop.now 0 (line_frame columns word.now (fields columns.columns rest.now) ending.now) out.old) × (out.new ≡ frame_placed texts.entry.start.now texts.entry.stop.now 0 (line_frame columns word.now (fields columns.columns rest.now) ending.now) out.old) }
{
    let first = base::put_at(out, 0, word);
    let last = write_fields(out, first, rest, columns, texts);
    last + base::put(&mut out[last..], ending)
}

// The same with two times as texts of a kind, each with its mark.
pub fn write_kept(
    out: &mut [u8],
    word: &[u8],
    rest: &[u8],
    columns: Columns,
    times: Times,
    kind: u32,
    ending: &[u8],
) -> usize
    ensures { (result ≡ frame_after (time_text kind times.start_mark times.start) (time_text kind times.stop_mark times.stop) 0 (line_frame columns word.now (fields columns.columns rest.now) ending.now) out.old) × (out.new ≡ frame_placed (time_text kind times.start_mark times.start) (time_text kind times.stop_mark times.stop) 0 (line_frame columns word.now (fields columns.columns rest.now) ending.now) out.old) }
{
    // Kept: (1) no heap: the memory is fixed.
    let mut a = [0u8; 24];
    let mut b = [0u8; 24];
    let n = caption_stamp::write_time(times.start, kind, times.start_mark, &mut a);
    let m = caption_stamp::write_time(times.stop, kind, times.stop_mark, &mut b);
    let texts = Texts {
        start: base::front(&a, n),
        stop: base::front(&b, m),
    };
    write_line(out, word, rest, ending, columns, texts)
}
