// The caption text of a folder retimed, as document 01's "Small proofs" has it.
ghost use Rattle.std.specs.Prelude.{IfOk};
ghost use Rattle.files_retime.specs.Retimed.{Runs, Chooses, Retimes};
ghost use Rattle.streams.specs.Left.{Drains, Grows};

use crate::pass::pass;
use std::io;
use std::io::{Read, Write};
use std::rt::Files;

// One pass over a file of the kind.
fn run_file<R: Read, W: Write>(
    to: &mut W,
    from: &mut R,
    kind: u32,
    timescale: u32,
    map: &[u64],
    writing: bool,
) -> io::Result<u32>
    ensures value { IfOk result (λ r. Runs kind timescale map.now r) }
    ensures grows { Grows (W.contents to.old) (W.contents to.new) }
    ensures drains { Drains (R.remaining from.old) (R.remaining from.new) }
{
    let opened = session::open(kind, timescale, map);
    if opened.number != 0 {
        return Ok(opened.number);
    }
    pass(to, from, opened.session, map, writing)
}

// One pass over `subs.ass`, else `subs.srt`, else `subs.vtt`, the first that can be opened; none of them: an empty text of SRT.
fn run<R: Files, W: Write>(
    rt: &R,
    to: &mut W,
    folder: &[u8],
    timescale: u32,
    map: &[u64],
    writing: bool,
) -> io::Result<u32>
    ensures value { IfOk result (λ r. Chooses timescale map.now r) }
    ensures grows { Grows (W.contents to.old) (W.contents to.new) }
{
    if let Some(mut ass) = files_map::open_below(rt, folder, b"subs.ass") {
        return run_file(to, &mut ass, 0, timescale, map, writing);
    }
    if let Some(mut srt) = files_map::open_below(rt, folder, b"subs.srt") {
        return run_file(to, &mut srt, 1, timescale, map, writing);
    }
    if let Some(mut vtt) = files_map::open_below(rt, folder, b"subs.vtt") {
        return run_file(to, &mut vtt, 2, timescale, map, writing);
    }
    run_file(to, &mut io::empty(), 1, timescale, map, writing)
}

// The map, outward, then the text dry, then writing where nothing was refused. A sheet above 65,536 bytes is 11.
fn retimed<R: Files, W: Write>(
    rt: &R,
    to: &mut W,
    folder: &[u8],
    sheet: &[u8],
    list: &[u8],
) -> io::Result<u32>
    ensures value { IfOk result (λ r. Retimes sheet.now list.now r) }
    ensures grows { Grows (W.contents to.old) (W.contents to.new) }
{
    if 65536 < sheet.len() {
        return Ok(11);
    }
    // Kept: (1) no heap: the memory is fixed.
    let mut map = [0u64; 6144];
    let mut work = [0; base::MOST_WORK];
    let made = segmap::make(sheet, list, 0, &mut work, &mut map);
    if made.number != 0 {
        return Ok(made.number);
    }
    let kept = files_map::first_segments(&map, made.count);
    let number = run(rt, to, folder, made.timescale, kept, false)?;
    if number == 0 {
        run(rt, to, folder, made.timescale, kept, true)?;
    }
    Ok(number)
}

// Prints the text, or `refused` and the number.
pub fn retime<R: Files, W: Write>(
    rt: &R,
    to: &mut W,
    folder: &[u8],
    sheet: &[u8],
    list: &[u8],
) -> io::Result<u32>
    ensures value { IfOk result (λ r. Retimes sheet.now list.now r) }
    ensures grows { Grows (W.contents to.old) (W.contents to.new) }
{
    let number = retimed(rt, to, folder, sheet, list)?;
    if number != 0 {
        files_map::print_number(to, b"refused ", number)?;
    }
    Ok(number)
}
