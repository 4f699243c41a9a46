// The page of a folder's questions.
ghost use Rattle.std.specs.Prelude.{◌≡◌, IfOk};
ghost use Rattle.files_why.specs.Page.{page_number};
ghost use Rattle.streams.specs.Left.{Grows};

use crate::question::{Unread, asked};
use crate::sentence::print_answer;
use std::io;
use std::io::Write;

// Why a line is not answered.
fn print_unread<W: Write>(to: &mut W, unread: Unread) -> io::Result<()>
    ensures grows { Grows (W.contents to.old) (W.contents to.new) }
{
    match unread {
        Unread::Kind => streams::write_text(
            to,
            b"  can't be read: it begins with none of `ass`, `srt` and `vtt`\n",
        ),
        Unread::Times => streams::write_text(
            to,
            b"  can't be read: behind the kind stand a start and an end, as in the captions\n",
        ),
    }
}

// One line, and its answer below it; nothing for a blank one.
fn print_line<W: Write>(to: &mut W, line: &[u8], map: &[u64], timescale: u32) -> io::Result<()>
    ensures grows { Grows (W.contents to.old) (W.contents to.new) }
{
    if text::is_blank(line) {
        return Ok(());
    }
    streams::write_text(to, whitespace::trimmed(line))?;
    streams::write_text(to, b"\n")?;
    match asked(line) {
        Ok(q) => print_answer(to, q, map, timescale),
        Err(unread) => print_unread(to, unread),
    }
}

fn print_lines<W: Write>(to: &mut W, times: &[u8], map: &[u64], timescale: u32) -> io::Result<()>
    ensures grows { Grows (W.contents to.old) (W.contents to.new) }
{
    let mut t = times;
    while !t.is_empty() {
        let (line, rest) = t.split_at(text::line_length(t));
        print_line(to, line, map, timescale)?;
        t = rest;
    }
    Ok(())
}

// The number of a page: that of the map, outward, and 16 for questions above 65,536 bytes. Prints the answers where it is 0.
fn told<W: Write>(to: &mut W, sheet: &[u8], list: &[u8], times: &[u8]) -> io::Result<u32>
    ensures value { IfOk result (λ r. r ≡ page_number sheet.now list.now times.now) }
    ensures grows { Grows (W.contents to.old) (W.contents to.new) }
{
    if 65536 < sheet.len() {
        return Ok(11);
    }
    // Kept: (1) no heap: the memory is fixed.
    let mut map = [0u64; 6144];
    let mut work = [0; base::MOST_WORK];
    let made = segmap::make(sheet, list, 0, &mut work, &mut map);
    if made.number != 0 {
        return Ok(made.number);
    }
    if 65536 < times.len() {
        return Ok(16);
    }
    print_lines(
        to,
        times,
        files_map::first_segments(&map, made.count),
        made.timescale,
    )?;
    Ok(0)
}

// Prints the answers to the lines of `times`, each below its line, or `refused` and the number.
pub fn tell<W: Write>(to: &mut W, sheet: &[u8], list: &[u8], times: &[u8]) -> io::Result<u32>
    ensures value { IfOk result (λ r. r ≡ page_number sheet.now list.now times.now) }
    ensures grows { Grows (W.contents to.old) (W.contents to.new) }
{
    let number = told(to, sheet, list, times)?;
    if number != 0 {
        files_map::print_number(to, b"refused ", number)?;
    }
    Ok(number)
}
