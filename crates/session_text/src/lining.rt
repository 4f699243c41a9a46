// The lines of a text, taken where they stand in it.
ghost use Rattle.std.specs.Prelude.{◌≡◌, true, false, cond, ◌≤◌, ◌+◌, ltb, length, take, drop};
ghost use Rattle.spec_base.specs.base.Limits.{most_taken, most_line};
ghost use Rattle.spec_map.specs.segment.Segment.{segments_of, map_bad};
ghost use Rattle.spec_map.specs.segment.Groups.{groups_of};
ghost use Rattle.spec_text.specs.utf8.Utf8.{utf8};
ghost use Rattle.spec_text.specs.text.Line.{concat, has_lf};
ghost use Rattle.spec_machine.specs.session_counts.Cut.{closed_lines};
ghost use Rattle.spec_session.specs.session_lines.LinesThrough.{take_in, LineTells};
ghost use Rattle.std.specs.Option.{MatchOption};
ghost use Rattle.spec_session.specs.session_text.Lined.{Closed, Joins, line_start, Starts, lined_of, Onto, text_run, Ends};

use ass_columns::Columns;
use caption_fate::Config;
use session_counts::Counts;
use session_lines::Taken;
use session_state::Head;
use spec_session::session_text::Lined;

// Where the line that begins at i ends, behind its LF; none where no LF ends it within 4,096 bytes.
fn line_end(text: &[u8], i: usize) -> Option<usize>
    ensures { MatchOption result (has_lf (take most_line (drop i text.now)) ≡ false) (Closed text.now i) }
{
    let line = base::front(base::rest(text, i), base::MOST_LINE);
    let k = text::line_length(line);
    if k != 0 && line[k - 1] == b'\n' {
        Some(i + k)
    } else {
        None
    }
}

// Where the open block begins after a line: at b where the line joins it, else at e.
fn block_begin(added: bool, b: usize, e: usize) -> usize
    ensures { result ≡ cond added b e }
{
    if added { b } else { e }
}

// The number where no LF ends a line any more and k bytes are left: 19 where they are too many.
fn rest_number(k: usize) -> u32
    ensures { result ≡ cond (ltb most_line k) 19 0 }
{
    if base::MOST_LINE < k { 19 } else { 0 }
}

// How far the lines have led, of its numbers.
fn led_to(
    number: u32,
    n: u32,
    counts: Counts,
    columns: Columns,
    b: usize,
    i: usize,
    o: usize,
    w: usize,
) -> Lined
    ensures { result ≡ lined_of number n counts columns b i o w }
{
    Lined {
        number,
        lines: n,
        counts,
        columns,
        begin: b,
        place: i,
        written: o,
        warned: w,
    }
}

// Whether the lines of `rest` that LF ends are UTF-8; of ASS it is not asked.
fn lines_good(kind: u32, rest: &[u8]) -> bool
    ensures { result ≡ true → utf8 (concat (closed_lines rest.now)) ≡ true }
{
    kind != 0 && utf8::is_utf8(base::front(rest, session_state::block_end(rest)))
}

// Lines passed over: how many lines there are before the next one, where that begins and ends.
#[derive(Clone, Copy, Debug, PartialEq, Eq)]
struct Passed {
    lines: u32,
    place: usize,
    end: Option<usize>,
}

// Whether a line, before which n stand, only joins the open block, which has `size` bytes with it.
fn joins_block(good: bool, kind: u32, n: u32, size: usize, line: &[u8]) -> bool
    requires { good ≡ true → utf8 line.now ≡ true }
    ensures { result ≡ true → Joins kind n size line.now }
{
    n != 0
        && size <= base::MOST_BLOCK
        && !block_timing::is_blank_in(kind, line)
        && (good || utf8::is_utf8(line))
}

// Passes over the lines from i on that only join the open block, which begins at b.
fn pass_joins(good: bool, kind: u32, lines: u32, b: usize, begin: usize, text: &[u8]) -> Passed
    requires lines_bound { (lines ≤ most_taken + begin) × (b ≤ begin) × (begin ≤ length text.now) × (length text.now ≤ most_taken) }
    requires text_value { good ≡ true → utf8 (concat (closed_lines (drop begin text.now))) ≡ true }
    ensures begin_le_place { begin ≤ result.place }
    ensures onto { Onto kind b text.now lines begin result.lines result.place }
    ensures line_end { MatchOption result.end (has_lf (take most_line (drop result.place text.now)) ≡ false) (Closed text.now result.place) }
    ensures text_value_2 { good ≡ true → utf8 (concat (closed_lines (drop result.place text.now))) ≡ true }
{
    let mut n = lines;
    let mut place = begin;
    while let Some(end) = line_end(text, place) {
        if kind == 0 || !joins_block(good, kind, n, end - b, &text[place..end]) {
            return Passed {
                lines: n,
                place,
                end: Some(end),
            };
        }
        n += 1;
        place = end;
    }
    Passed {
        lines: n,
        place,
        end: None,
    }
}

// A line with the BOM that may begin it, through a map with the bounds of its groups.
fn take_grouped(
    config: Config,
    map: &[u64],
    groups: &[u64],
    n: u32,
    counts: Counts,
    columns: Columns,
    held: &[u8],
    s: usize,
    out: &mut [u8],
    warnings: &mut [u64],
) -> Taken
    requires { (map_bad map.now ≡ false) × (groups.now ≡ groups_of map.now) }
    ensures { LineTells (take_in config (segments_of map.now) n counts columns held.now s (length out.old) (length warnings.old)) counts result out.old out.new warnings.old warnings.new }
{
    session_lines::take_line_by(
        config, map, groups, n, counts, columns, held, s, out, warnings,
    )
}

// All lines of a text: the held unfinished one begins at `start`. They end with a fault, or with what is unfinished.
pub fn run_lines(
    head: Head,
    map: &[u64],
    groups: &[u64],
    start: usize,
    text: &[u8],
    out: &mut [u8],
    warnings: &mut [u64],
) -> Lined
    requires { Starts head map.now text.now (length out.old) (length warnings.old) × (start ≡ line_start head text.now) × (groups.now ≡ groups_of map.now) }
    ensures { Ends head map.now text.now (text_run head text.now) result out.old out.new warnings.old warnings.new }
{
    let mut counts = head.counts;
    let mut columns = head.columns;
    let mut n = head.lines;
    let mut b: usize = 0;
    let mut i = start;
    let mut o: usize = 0;
    let mut w: usize = 0;
    let good = lines_good(head.config.kind, base::rest(text, i));
    while i < text.len() {
        let p = pass_joins(good, head.config.kind, n, b, i, text);
        let Some(e) = p.end else {
            let number = rest_number(text.len() - p.place);
            return led_to(number, p.lines, counts, columns, b, p.place, o, w);
        };
        let told = take_grouped(
            head.config,
            map,
            groups,
            p.lines,
            counts,
            columns,
            &text[b..e],
            p.place - b,
            &mut out[o..],
            &mut warnings[w..],
        );
        if told.number != 0 {
            return led_to(told.number, p.lines, counts, columns, b, p.place, o, w);
        }
        b = block_begin(told.added, b + told.skip, e);
        counts = told.counts;
        columns = told.columns;
        o += told.written;
        w += told.warned;
        n = p.lines + 1;
        i = e;
    }
    led_to(0, n, counts, columns, b, i, o, w)
}
