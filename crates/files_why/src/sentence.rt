// The answer to one question in words.
ghost use Rattle.streams.specs.Left.{Grows};

use crate::question::Question;
use crate::span::{print_length, print_segment};
use ask_reason::Why;
use caption_fate::Counted;
use std::io;
use std::io::Write;

// How many ticks of one end were cut off, and how long that is.
fn print_cut<W: Write>(
    to: &mut W,
    name: &[u8],
    ticks: u64,
    timescale: u32,
    q: Question,
) -> io::Result<()>
    ensures grows { Grows (W.contents to.old) (W.contents to.new) }
{
    if ticks == 0 {
        return Ok(());
    }
    streams::write_text(to, name)?;
    streams::write_number(to, ticks)?;
    streams::write_text(to, b" ticks (")?;
    print_length(to, ticks, timescale, q)?;
    streams::write_text(to, b") cut off")
}

// A caption that is kept.
fn print_kept<W: Write>(
    to: &mut W,
    why: Why,
    map: &[u64],
    timescale: u32,
    q: Question,
) -> io::Result<()>
    ensures grows { Grows (W.contents to.old) (W.contents to.new) }
{
    streams::write_text(to, b"  kept in ")?;
    print_segment(to, map, why.place, timescale, q)?;
    print_cut(to, b", at its start ", why.start_cut, timescale, q)?;
    print_cut(to, b", at its end ", why.end_cut, timescale, q)?;
    streams::write_text(to, b"\n")
}

// Kept: causes are numbers, since `ask_reason::reason` writes them to places that a caller from C lends.
fn print_cause<W: Write>(to: &mut W, cause: u64) -> io::Result<()>
    ensures grows { Grows (W.contents to.old) (W.contents to.new) }
{
    match cause {
        1 => streams::write_text(to, b" has no length\n"),
        2 => streams::write_text(to, b" ends at or before the caption's start\n"),
        _ => streams::write_text(to, b" starts at or after the caption's end\n"),
    }
}

// A caption that is dropped: a line for each segment.
fn print_causes<W: Write>(
    to: &mut W,
    causes: &[u64],
    map: &[u64],
    timescale: u32,
    q: Question,
) -> io::Result<()>
    ensures grows { Grows (W.contents to.old) (W.contents to.new) }
{
    streams::write_text(to, b"  dropped: it meets no kept segment\n")?;
    for i in 0..map.len() / 6 {
        streams::write_text(to, b"    ")?;
        print_segment(to, map, i, timescale, q)?;
        print_cause(to, base::get_or(causes, i, 0))?;
    }
    Ok(())
}

// What becomes of the caption that is asked for, and why.
pub fn print_answer<W: Write>(
    to: &mut W,
    q: Question,
    map: &[u64],
    timescale: u32,
) -> io::Result<()>
    ensures grows { Grows (W.contents to.old) (W.contents to.new) }
{
    // Kept: (1) no heap: the memory is fixed.
    let mut causes = [0u64; 1024];
    let why = ask_reason::reason(map, timescale, q.kind, q.start, q.stop, &mut causes);
    if why.number != 0 {
        files_map::print_number(to, b"  refused ", why.number)?;
        return Ok(());
    }
    match why.fate {
        Counted::Dropped => print_causes(to, &causes, map, timescale, q),
        _ => print_kept(to, why, map, timescale, q),
    }
}
