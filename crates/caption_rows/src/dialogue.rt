// One ASS line.
ghost use Rattle.std.specs.Prelude.{◌≡◌, [], suc, ◌+◌, ◌≤◌, ◌<◌, ◌^◌, length, drop};
ghost use Rattle.spec_text.specs.text.Line.{text_of};
ghost use Rattle.spec_time.specs.caption_stamp.Read.{time_in};
ghost use Rattle.spec_ass.specs.ass_columns.Columns.{fields, field_at};
ghost use Rattle.spec_ass.specs.ass_line.Line.{times_say, caption_says, word_says, line_says};
ghost use Rattle.spec_ass.specs.ass_line.AssThrough.{columns_after};
ghost use Rattle.spec_rows.specs.caption_rows.Said.{caption_said, line_said, last_words};

use crate::said::{nothing, without};
use ass_columns::{Columns, columns_of, enough, field, in_section, is_section, names_events};
use refusals::Refusal;
use spec_rows::caption_rows::Said;

// What a line gives, and the columns for the next one.
#[derive(Clone, Copy)]
pub struct LineRead {
    pub said: Said,
    pub columns: Columns,
}

// A caption that passes: its line from `at` on, of `size` bytes.
fn passing(number: u64, line: u64, at: usize, size: usize) -> Said
    ensures { result ≡ caption_said line number 0 0 at size }
{
    Said {
        number: 0,
        caption: true,
        line,
        warned: number,
        start: 0,
        stop: 0,
        at,
        size,
    }
}

// The length of the words: the last field, unless a time stands there.
fn words_length(columns: Columns, rest: &[u8]) -> usize
    ensures { result ≡ last_words columns (fields columns.columns rest.now) }
{
    if columns.columns == columns.end || columns.columns == columns.start {
        0
    } else {
        field(rest, columns.columns, columns.columns).len()
    }
}

// A caption with its fields: `rest` stands behind its word; its line begins at `from` and has `size` bytes without the terminator.
fn timed(columns: Columns, line: u64, from: usize, size: usize, rest: &[u8]) -> Said
    requires { (from + size < 2 ^ 64) × (columns.columns ≤ length (fields columns.columns rest.now)) }
    ensures { result ≡ line_said line from size (times_say columns line [] (fields columns.columns rest.now) [] (time_in 0 (field_at columns.start (fields columns.columns rest.now))) (time_in 0 (field_at columns.«end» (fields columns.columns rest.now)))) }
{
    let count = columns.columns;
    let Some(start) = caption_stamp::read_time(field(rest, count, columns.start), 0) else {
        return without(Refusal::BadTime, line);
    };
    let Some(stop) = caption_stamp::read_time(field(rest, count, columns.end), 0) else {
        return without(Refusal::BadTime, line);
    };
    let words = words_length(columns, rest);
    Said {
        number: 0,
        caption: true,
        line,
        warned: 0,
        start: start.units,
        stop: stop.units,
        at: from + size.saturating_sub(words),
        size: words,
    }
}

// A caption line; its word has `skip` bytes.
fn caption(columns: Columns, line: u64, from: usize, text: &[u8], skip: usize) -> Said
    requires { from + length (text_of text.now) < 2 ^ 64 }
    ensures { result ≡ line_said line from (length (text_of text.now)) (caption_says columns line text.now [] (drop skip (text_of text.now))) }
{
    let t = text::text_of(text);
    if columns.start == 0 || columns.end == 0 {
        return passing(1, line, from, t.len());
    }
    let rest = base::rest(t, skip);
    if enough(rest, columns.columns) {
        timed(columns, line, from, t.len(), rest)
    } else {
        passing(2, line, from, t.len())
    }
}

// A line in Events.
fn event_line(columns: Columns, n: usize, from: usize, text: &[u8]) -> LineRead
    requires { (n + 1 < 2 ^ 64) × (from + length (text_of text.now) < 2 ^ 64) }
    ensures said { result.said ≡ line_said (suc n) from (length (text_of text.now)) (word_says columns n text.now (text_of text.now)) }
    ensures columns { result.columns ≡ columns_after columns (word_says columns n text.now (text_of text.now)) }
{
    let line = (n + 1) as u64;
    let t = text::text_of(text);
    if pattern::starts_with(t, b"Format:") {
        let said = nothing();
        let columns = columns_of(base::rest(t, 7)).columns;
        return LineRead { said, columns };
    }
    if pattern::starts_with(t, b"Dialogue:") {
        let said = caption(columns, line, from, text, 9);
        return LineRead { said, columns };
    }
    if pattern::starts_with(t, b"Comment:") {
        let said = caption(columns, line, from, text, 8);
        return LineRead { said, columns };
    }
    let said = nothing();
    LineRead { said, columns }
}

// What a line gives: `text` is the line with its terminator and without a BOM, `n` lines came before it, and it begins at byte `from`.
pub fn read_line(columns: Columns, n: usize, from: usize, text: &[u8]) -> LineRead
    requires { (n + 1 < 2 ^ 64) × (from + length (text_of text.now) < 2 ^ 64) }
    ensures said { result.said ≡ line_said (suc n) from (length (text_of text.now)) (line_says columns n text.now) }
    ensures columns { result.columns ≡ columns_after columns (line_says columns n text.now) }
{
    let t = whitespace::trimmed(text::text_of(text));
    if is_section(t) {
        let columns = in_section(names_events(t), columns);
        let said = nothing();
        return LineRead { said, columns };
    }
    if columns.events {
        return event_line(columns, n, from, text);
    }
    let said = nothing();
    LineRead { said, columns }
}
