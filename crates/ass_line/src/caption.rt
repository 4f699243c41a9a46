// One ASS line: what it says, put through the map.
ghost use Rattle.std.specs.Prelude.{◌≡◌, ◌&&◌, [], ◌∷◌, ◌++◌, ◌+◌, ◌*◌, ◌≤◌, length, drop};
ghost use Rattle.spec_base.specs.base.Put.{put, placed_at, place_after};
ghost use Rattle.spec_text.specs.text.Line.{text_of, terminator_of};
ghost use Rattle.spec_text.specs.whitespace.White.{trim_tail};
ghost use Rattle.spec_time.specs.caption_stamp.Read.{time_in};
ghost use Rattle.spec_caption.specs.caption_fate.Grouped.{segments_by};
ghost use Rattle.spec_caption.specs.caption_fate.Decide.{decide_in};
ghost use Rattle.spec_caption.specs.caption_fate.Fates.{passed};
ghost use Rattle.spec_caption.specs.caption_fate.Emit.{none, decided, emit, warning, warn_if, places_of, kept_emit};
ghost use Rattle.spec_caption.specs.caption_fate.Told.{answered, cue_in, Tells};
ghost use Rattle.spec_ass.specs.ass_columns.Columns.{fields, field_at};
ghost use Rattle.spec_ass.specs.ass_columns.Section.{bracketed};
ghost use Rattle.spec_ass.specs.ass_write.Tags.{tagged};
ghost use Rattle.spec_ass.specs.ass_write.Frame.{line_frame, frame_most};
ghost use Rattle.spec_ass.specs.ass_line.Line.{line_cue, times_say, caption_says, word_says};
ghost use Rattle.spec_ass.specs.ass_line.AssThrough.{columns_after, line_answer_in, line_in, columns_next, stayed_with};

use ass_columns::{Columns, columns_of, enough, field, in_section, is_section, names_events};
use ass_write::{Times, has_tag, write_kept};
use caption_fate::{Config, Counted, Decision, Retimed, Told, counted_by, refused};

// What a line tells, and the columns for the next one.
#[derive(Clone, Copy)]
pub struct LineTold {
    pub told: Told,
    pub columns: Columns,
}

// What a caption is put through: the segments of a map, by the groups of its numbers.
#[derive(Clone, Copy)]
struct Cut<'a> {
    config: Config,
    map: &'a [u64],
    groups: &'a [u64],
}

// The parts of a caption line: the word, its fields, and the terminator.
#[derive(Clone, Copy)]
struct Parts<'a> {
    word: &'a [u8],
    rest: &'a [u8],
    ending: &'a [u8],
}

// A line that stays as it is.
fn stayed(text: &[u8], out: &mut [u8]) -> Told
    requires { 3 * length text.now ≤ length out.old }
    ensures { (result ≡ stayed_with (length text.now)) × (out.new ≡ put text.now out.old) }
{
    let written = base::put(out, text);
    Told {
        number: 0,
        counted: Counted::Nothing,
        written,
        warned: 0,
    }
}

// A caption that passes as it is, with warning 1 or 2.
fn passing(number: u64, line: u64, text: &[u8], out: &mut [u8], warnings: &mut [u64]) -> Told
    requires { (3 * length text.now ≤ length out.old) × (4 ≤ length warnings.old) }
    ensures { Tells (answered (emit text.now (warning number line ∷ []) (decided passed))) result out.old out.new warnings.old warnings.new }
{
    let written = base::put(out, text);
    let warned = base::put_at(warnings, 0, &[number, line]);
    Told {
        number: 0,
        counted: Counted::Passed,
        written,
        warned,
    }
}

// Whether the start was cut and a tag stands in the last field.
fn tag_cut(cut: bool, rest: &[u8], columns: usize) -> bool
    ensures { result ≡ (cut && tagged (field_at columns (fields columns rest.now))) }
{
    cut && has_tag(field(rest, columns, columns))
}

// A warning from the place `at` on, where there is one, and the place after it.
fn warn_at(warns: bool, number: u64, at: usize, line: u64, warnings: &mut [u64]) -> usize
    ensures { (result ≡ place_after at (places_of (warn_if warns number line)) warnings.old) × (warnings.new ≡ placed_at at (places_of (warn_if warns number line)) warnings.old) }
{
    if warns {
        base::put_at(warnings, at, &[number, line])
    } else {
        at
    }
}

// Warning 3, and then warning 4.
fn warn(tag: bool, lost: bool, line: u64, warnings: &mut [u64]) -> usize
    requires { 4 ≤ length warnings.old }
    ensures { (result ≡ length (places_of (warn_if tag 3 line ++ warn_if lost 4 line))) × (warnings.new ≡ put (places_of (warn_if tag 3 line ++ warn_if lost 4 line)) warnings.old) }
{
    let at = warn_at(tag, 3, 0, line, warnings);
    warn_at(lost, 4, at, line, warnings)
}

// A caption that is kept.
fn keep(
    kind: u32,
    columns: Columns,
    old: Times,
    r: Retimed,
    line: u64,
    parts: Parts,
    out: &mut [u8],
    warnings: &mut [u64],
) -> Told
    requires { (frame_most (line_frame columns parts.word.now (fields columns.columns parts.rest.now) parts.ending.now) ≤ length out.old) × (4 ≤ length warnings.old) }
    ensures { Tells (answered (kept_emit kind (line_cue columns line parts.entry.word.now (fields columns.columns parts.entry.rest.now) parts.entry.ending.now old.start old.start_mark old.stop old.stop_mark) r)) result out.old out.new warnings.old warnings.new }
{
    let new = Times {
        start: r.start,
        stop: r.stop,
        ..old
    };
    let lost = r.lost;
    let tag = tag_cut(r.start_cut, parts.rest, columns.columns);
    let counted = counted_by(r);
    let written = write_kept(
        out,
        parts.word,
        parts.rest,
        columns,
        new,
        kind,
        parts.ending,
    );
    let warned = warn(tag, lost, line, warnings);
    Told {
        number: 0,
        counted,
        written,
        warned,
    }
}

// A caption whose times are read.
fn settle(
    cut: Cut,
    columns: Columns,
    old: Times,
    line: u64,
    parts: Parts,
    out: &mut [u8],
    warnings: &mut [u64],
) -> Told
    requires { (frame_most (line_frame columns parts.word.now (fields columns.columns parts.rest.now) parts.ending.now) ≤ length out.old) × (4 ≤ length warnings.old) }
    ensures { Tells (cue_in cut.entry.config.kind (line_cue columns line parts.entry.word.now (fields columns.columns parts.entry.rest.now) parts.entry.ending.now old.start old.start_mark old.stop old.stop_mark) (decide_in cut.entry.config (segments_by cut.entry.groups.now cut.entry.map.now) old.start old.stop)) result out.old out.new warnings.old warnings.new }
{
    let config = cut.config;
    match caption_fate::decide(cut.map, cut.groups, config, old.start, old.stop) {
        Decision::Strange => refused(15),
        Decision::Dropped => Told {
            number: 0,
            counted: Counted::Dropped,
            written: 0,
            warned: 0,
        },
        Decision::Kept(r) => keep(config.kind, columns, old, r, line, parts, out, warnings),
    }
}

// A caption with its fields, on line n: both times must read.
fn timed(
    cut: Cut,
    columns: Columns,
    n: u64,
    text: &[u8],
    word: &[u8],
    rest: &[u8],
    out: &mut [u8],
    warnings: &mut [u64],
) -> Told
    requires { (3 * length text.now ≤ length out.old) × ((4 ≤ length warnings.old) × ((1 ≤ length word.now) × (length word.now + length rest.now + length (terminator_of text.now) ≤ length text.now))) }
    ensures { Tells (line_answer_in cut.entry.config (segments_by cut.entry.groups.now cut.entry.map.now) (times_say columns n word.now (fields columns.columns rest.now) (terminator_of text.now) (time_in 0 (field_at columns.start (fields columns.columns rest.now))) (time_in 0 (field_at columns.«end» (fields columns.columns rest.now))))) result out.old out.new warnings.old warnings.new }
{
    let count = columns.columns;
    let Some(start) = caption_stamp::read_time(field(rest, count, columns.start), 0) else {
        return refused(22);
    };
    let Some(stop) = caption_stamp::read_time(field(rest, count, columns.end), 0) else {
        return refused(22);
    };
    let old = Times {
        start: start.units,
        start_mark: start.mark,
        stop: stop.units,
        stop_mark: stop.mark,
    };
    let ending = text::terminator_of(text);
    let parts = Parts { word, rest, ending };
    settle(cut, columns, old, n, parts, out, warnings)
}

// A caption line that begins with `word`.
fn caption(
    cut: Cut,
    columns: Columns,
    line: u64,
    text: &[u8],
    word: &[u8],
    out: &mut [u8],
    warnings: &mut [u64],
) -> Told
    requires { (3 * length text.now ≤ length out.old) × ((4 ≤ length warnings.old) × ((1 ≤ length word.now) × (length word.now ≤ length (text_of text.now)))) }
    ensures { Tells (line_answer_in cut.entry.config (segments_by cut.entry.groups.now cut.entry.map.now) (caption_says columns line text.now word.now (drop (length word.now) (text_of text.now)))) result out.old out.new warnings.old warnings.new }
{
    if columns.start == 0 || columns.end == 0 {
        return passing(1, line, text, out, warnings);
    }
    let rest = base::rest(text::text_of(text), word.len());
    if enough(rest, columns.columns) {
        timed(cut, columns, line, text, word, rest, out, warnings)
    } else {
        passing(2, line, text, out, warnings)
    }
}

// A line in Events.
fn event_line(
    cut: Cut,
    columns: Columns,
    n: u32,
    text: &[u8],
    out: &mut [u8],
    warnings: &mut [u64],
) -> LineTold
    requires { (3 * length text.now ≤ length out.old) × (4 ≤ length warnings.old) }
    ensures told { Tells (line_answer_in cut.entry.config (segments_by cut.entry.groups.now cut.entry.map.now) (word_says columns n text.now (text_of text.now))) result.told out.old out.new warnings.old warnings.new }
    ensures columns { result.columns ≡ columns_after columns (word_says columns n text.now (text_of text.now)) }
{
    let at = u64::from(n) + 1;
    let t = text::text_of(text);
    if pattern::starts_with(t, b"Format:") {
        let told = stayed(text, out);
        let columns = columns_of(base::rest(t, 7)).columns;
        return LineTold { told, columns };
    }
    if pattern::starts_with(t, b"Dialogue:") {
        let told = caption(cut, columns, at, text, b"Dialogue:", out, warnings);
        return LineTold { told, columns };
    }
    if pattern::starts_with(t, b"Comment:") {
        let told = caption(cut, columns, at, text, b"Comment:", out, warnings);
        return LineTold { told, columns };
    }
    let told = stayed(text, out);
    LineTold { told, columns }
}

// Whether a text goes from `[` to `]` when its end is trimmed, which it is only where it begins with `[`.
fn trims_to_section(s: &[u8]) -> bool
    ensures { result ≡ bracketed (trim_tail s.now) }
{
    base::get_or(s, 0, 0) == b'[' && is_section(whitespace::trim_tail(s))
}

// What becomes of a line: `text` is the line with its terminator and without a BOM, and `n` lines came before it.
pub fn line(
    config: Config,
    map: &[u64],
    groups: &[u64],
    columns: Columns,
    n: u32,
    text: &[u8],
    out: &mut [u8],
    warnings: &mut [u64],
) -> LineTold
    ensures told { Tells (line_in config (segments_by groups.now map.now) columns n text.now (length out.old) (length warnings.old)) result.told out.old out.new warnings.old warnings.new }
    ensures columns { result.columns ≡ columns_next columns n text.now (length out.old) (length warnings.old) }
{
    if out.len() / 3 < text.len() || warnings.len() < 4 {
        let told = refused(16);
        return LineTold { told, columns };
    }
    let s = whitespace::trim_head(text::text_of(text));
    if trims_to_section(s) {
        let columns = in_section(names_events(whitespace::trim_tail(s)), columns);
        let told = stayed(text, out);
        return LineTold { told, columns };
    }
    if columns.events {
        let cut = Cut {
            config,
            map,
            groups,
        };
        return event_line(cut, columns, n, text, out, warnings);
    }
    let told = stayed(text, out);
    LineTold { told, columns }
}
