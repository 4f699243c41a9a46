// A session that the caller keeps as its bytes: opened, fed in two pieces that part a line, finished, and fed once more.
ghost use Rattle.streams.specs.Left.{Grows};

use number_lines::print_line;
use std::io;
use std::io::Write;

// The number, and two bytes of the session: the first, and the lowest of the last block's sum, which is its number, 17.
fn open<W: Write>(
    to: &mut W,
    kind: u32,
    timescale: u32,
    map: &[u64],
    session: &mut [u8],
) -> io::Result<()>
    ensures grows { Grows (W.contents to.old) (W.contents to.new) }
{
    let number = c_api::retimer_open(kind, timescale, map, session);
    let first = base::get_or(session, 0, 0);
    let last = base::get_or(session, 9212, 0);
    print_line(
        to,
        b"open",
        &[u64::from(number), u64::from(first), u64::from(last)],
    )?;
    Ok(())
}

// What a call told: its number, the two places, the first warning, and the bytes written.
fn told<W: Write>(
    to: &mut W,
    number: u32,
    written: u64,
    warned: u64,
    warnings: &[u64],
    out: &[u8],
) -> io::Result<()>
    ensures grows { Grows (W.contents to.old) (W.contents to.new) }
{
    let kind = base::get_or(warnings, 0, 0);
    let line = base::get_or(warnings, 1, 0);
    print_line(
        to,
        b"call",
        &[u64::from(number), written, warned, kind, line],
    )?;
    streams::write_text(to, base::front(out, written as usize))?;
    streams::write_text(to, b"\n")
}

fn feed<W: Write>(to: &mut W, session: &mut [u8], map: &[u64], piece: &[u8]) -> io::Result<()>
    ensures grows { Grows (W.contents to.old) (W.contents to.new) }
{
    let mut out = [46u8; 32768];
    let mut warnings = [7u64; 4096];
    let mut written: u64 = 0;
    let mut warned: u64 = 92;
    let number = c_api::retimer_feed(
        session,
        map,
        piece,
        &mut out,
        &mut warnings,
        &mut written,
        &mut warned,
    );
    told(to, number, written, warned, &warnings, &out)
}

fn finish<W: Write>(to: &mut W, session: &mut [u8], map: &[u64]) -> io::Result<()>
    ensures grows { Grows (W.contents to.old) (W.contents to.new) }
{
    let mut out = [46u8; 32768];
    let mut warnings = [7u64; 4096];
    let mut written: u64 = 93;
    let mut warned: u64 = 94;
    let number = c_api::retimer_finish(
        session,
        map,
        &mut out,
        &mut warnings,
        &mut written,
        &mut warned,
    );
    told(to, number, written, warned, &warnings, &out)
}

pub fn show<W: Write>(to: &mut W, map: &[u64]) -> io::Result<()>
    ensures grows { Grows (W.contents to.old) (W.contents to.new) }
{
    let mut session = [7u8; 9216];
    open(to, 3, 30000, map, &mut session)?;
    open(to, 3, 0, map, &mut session)?;
    open(to, 0, 30000, map, &mut session)?;
    feed(
        to,
        &mut session,
        map,
        b"[Events]\nFormat:Start,End\nDialogue:0:0",
    )?;
    feed(to, &mut session, map, b":0.05,0:0:0.25\nDialogue:a")?;
    finish(to, &mut session, map)?;
    feed(to, &mut session, map, b"x")
}
