// A whole text, line by line.
ghost use Rattle.std.specs.Prelude.{◌≡◌, [], ◌+◌, ◌≤◌, ◌<◌, ◌^◌, length, drop};
ghost use Rattle.refusals.specs.Numbers.{number_of, told};
ghost use Rattle.spec_base.specs.base.Limits.{most_taken};
ghost use Rattle.spec_text.specs.text.Line.{lines_of};
ghost use Rattle.spec_ass.specs.ass_columns.Columns.{no_columns};
ghost use Rattle.promise.specs.Plain.{bom_length, line_fault};
ghost use Rattle.spec_rows.specs.caption_rows.Walk.{ass_turn, ass_next, ass_walk, block_turn, block_from, block_first, block_walk, vtt_walk, walk_of, line_from, between, WalkedBy};

use crate::closed::read_block;
use crate::dialogue::{LineRead, read_line};
use crate::rows::{counted, row_at};
use crate::said::{nothing, without};
use ass_columns::Columns;
use refusals::Refusal;
use spec_rows::caption_rows::{Said, Walked};

// The open block after a line: where it begins, and how many lines came before it.
#[derive(Clone, Copy)]
struct Turn {
    said: Said,
    from: usize,
    first: usize,
}

fn stopped(number: u32, line: u64, captions: usize) -> Walked
    ensures { result ≡ record { number = number; line = line; captions = captions } }
{
    Walked {
        number,
        line,
        captions,
    }
}

// A fault of the first line.
fn stopped_first(why: Refusal) -> Walked
    ensures { result ≡ record { number = number_of why; line = 1; captions = 0 } }
{
    stopped(u32::from(why), 1, 0)
}

// 19, then 20; `mark` bytes of BOM stand before the line.
fn line_fault(mark: usize, line: &[u8]) -> Result<(), Refusal>
    requires { mark + length line.now < 2 ^ 64 }
    ensures { told result ≡ line_fault mark line.now }
{
    if base::MOST_LINE < mark + line.len() {
        Err(Refusal::LongLine)
    } else if utf8::is_utf8(line) {
        Ok(())
    } else {
        Err(Refusal::NotUtf8)
    }
}

// The line that begins at byte `at`.
fn line_at(text: &[u8], at: usize) -> &[u8]
    ensures { result.now ≡ line_from at text.now }
{
    let t = base::rest(text, at);
    base::front(t, text::line_length(t))
}

// The bytes from `from` to `to`.
fn between(text: &[u8], from: usize, to: usize) -> &[u8]
    ensures { result.now ≡ between from to text.now }
{
    base::front(base::rest(text, from), to.saturating_sub(from))
}

// An ASS line; n lines came before it.
fn ass_turn(mark: usize, columns: Columns, n: usize, at: usize, line: &[u8]) -> LineRead
    requires { (mark + length line.now < 2 ^ 64) × ((n + 1 < 2 ^ 64) × (at + length line.now < 2 ^ 64)) }
    ensures said { result.said ≡ ass_turn mark columns n at line.now }
    ensures columns { result.columns ≡ ass_next mark columns n line.now }
{
    if let Err(why) = line_fault(mark, line) {
        let said = without(why, (n + 1) as u64);
        return LineRead { said, columns };
    }
    read_line(columns, n, at, line)
}

// The lines from byte `mark` on.
// Kept: a chain is no plainer: a step is as long as its line, and a fault ends the walk with what was counted.
fn walk_ass(text: &[u8], mark: usize, rows: &mut [u64]) -> Walked
    requires { (mark ≤ length text.now) × (length text.now ≤ most_taken) }
    ensures { WalkedBy (ass_walk mark no_columns 0 mark (lines_of (drop mark text.now))) result rows.old rows.new }
{
    let mut columns = Columns {
        events: false,
        columns: 0,
        start: 0,
        end: 0,
    };
    let mut before = mark;
    let mut at = mark;
    let mut n = 0;
    let mut captions = 0;
    let mut place = 0;
    while at < text.len() {
        let line = line_at(text, at);
        let read = ass_turn(before, columns, n, at, line);
        let said = read.said;
        if said.number != 0 {
            return stopped(said.number, said.line, captions);
        }
        place = row_at(rows, place, said);
        captions = counted(captions, said.caption);
        columns = read.columns;
        before = 0;
        at += line.len();
        n += 1;
    }
    stopped(0, 0, captions)
}

// A line of blocks; the open block begins at `from`, behind `first` lines.
fn block_turn(
    kind: u32,
    mark: usize,
    from: usize,
    first: usize,
    block: &[u8],
    n: usize,
    line: &[u8],
) -> Turn
    requires { (1 ≤ kind) × ((mark + length line.now < 2 ^ 64) × ((n + 1 < 2 ^ 64) × ((first + 1 + length block.now < 2 ^ 64) × (from + length block.now + length line.now < 2 ^ 64)))) }
    ensures said { result.said ≡ block_turn kind mark from first block.now n line.now }
    ensures from { result.from ≡ block_from kind mark from block.now line.now }
    ensures first { result.first ≡ block_first kind mark first n line.now }
{
    if let Err(why) = line_fault(mark, line) {
        let said = without(why, (n + 1) as u64);
        return Turn { said, from, first };
    }
    if block_timing::is_blank_in(kind, line) {
        let said = read_block(kind, first + 1, from, block);
        return Turn {
            said,
            from: from + block.len() + line.len(),
            first: n + 1,
        };
    }
    if base::MOST_BLOCK < block.len() + line.len() {
        let said = without(Refusal::LongBlock, (first + 1) as u64);
        return Turn { said, from, first };
    }
    let said = nothing();
    Turn { said, from, first }
}

// The blocks from byte `start` on; `mark` bytes of BOM and `lines` lines stand before it.
// Kept: a chain is no plainer: a step is as long as its line, and a fault ends the walk with what was counted.
fn walk_blocks(
    kind: u32,
    text: &[u8],
    start: usize,
    mark: usize,
    lines: usize,
    rows: &mut [u64],
) -> Walked
    requires { (1 ≤ kind) × ((mark ≤ 3) × ((lines ≤ start) × ((start ≤ length text.now) × (length text.now ≤ most_taken)))) }
    ensures { WalkedBy (block_walk kind mark start lines [] lines (lines_of (drop start text.now))) result rows.old rows.new }
{
    let mut before = mark;
    let mut from = start;
    let mut first = lines;
    let mut at = start;
    let mut n = lines;
    let mut captions = 0;
    let mut place = 0;
    while at < text.len() {
        let line = line_at(text, at);
        let block = between(text, from, at);
        let turn = block_turn(kind, before, from, first, block, n, line);
        let said = turn.said;
        if said.number != 0 {
            return stopped(said.number, said.line, captions);
        }
        place = row_at(rows, place, said);
        captions = counted(captions, said.caption);
        from = turn.from;
        first = turn.first;
        before = 0;
        at += line.len();
        n += 1;
    }
    let said = read_block(kind, first + 1, from, between(text, from, at));
    if said.number != 0 {
        return stopped(said.number, said.line, captions);
    }
    place = row_at(rows, place, said);
    stopped(0, 0, counted(captions, said.caption))
}

// WebVTT: the first line, from byte `mark` on, then the blocks.
fn walk_vtt(text: &[u8], mark: usize, rows: &mut [u64]) -> Walked
    requires { (mark ≤ 3) × ((mark ≤ length text.now) × (length text.now ≤ most_taken)) }
    ensures { WalkedBy (vtt_walk mark mark (lines_of (drop mark text.now))) result rows.old rows.new }
{
    if text.len() <= mark {
        return stopped_first(Refusal::FirstLine);
    }
    let line = line_at(text, mark);
    if let Err(why) = line_fault(mark, line) {
        return stopped_first(why);
    }
    if block_timing::is_header(line) {
        walk_blocks(2, text, mark + line.len(), 0, 1, rows)
    } else {
        stopped_first(Refusal::FirstLine)
    }
}

// How many bytes of BOM stand before a text.
fn mark_length(text: &[u8]) -> usize
    ensures { result ≡ bom_length text.now }
{
    if pattern::starts_with(text, b"\xEF\xBB\xBF") {
        3
    } else {
        0
    }
}

// A whole text of a known kind.
pub fn walk(kind: u32, text: &[u8], rows: &mut [u64]) -> Walked
    requires { length text.now ≤ most_taken }
    ensures { WalkedBy (walk_of kind text.now) result rows.old rows.new }
{
    let mark = mark_length(text);
    match kind {
        0 => walk_ass(text, mark, rows),
        2 => walk_vtt(text, mark, rows),
        _ => walk_blocks(kind, text, mark, mark, 0, rows),
    }
}
