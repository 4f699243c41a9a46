// Why a caption is kept or dropped.
ghost use Rattle.streams.specs.Left.{Grows};

use ask_reason::Why;
use caption_fate::Counted;
use std::io;
use std::io::Write;

fn print_fate<W: Write>(to: &mut W, fate: Counted) -> io::Result<()>
    ensures grows { Grows (W.contents to.old) (W.contents to.new) }
{
    match fate {
        Counted::Shifted => streams::write_text(to, b"why shifted "),
        Counted::Clipped => streams::write_text(to, b"why clipped "),
        _ => streams::write_text(to, b"why dropped "),
    }
}

// The fate, the place, and the ticks cut off at each end; or the number.
fn print_told<W: Write>(to: &mut W, why: Why) -> io::Result<()>
    ensures grows { Grows (W.contents to.old) (W.contents to.new) }
{
    if why.number != 0 {
        files_map::print_number(to, b"refused ", why.number)?;
        return Ok(());
    }
    print_fate(to, why.fate)?;
    streams::write_number(to, why.place as u64)?;
    streams::write_text(to, b" ")?;
    streams::write_number(to, why.start_cut)?;
    streams::write_text(to, b" ")?;
    streams::write_number(to, why.end_cut)?;
    streams::write_text(to, b"\n")
}

fn print_places<W: Write>(to: &mut W, places: &[u64]) -> io::Result<()>
    ensures grows { Grows (W.contents to.old) (W.contents to.new) }
{
    streams::write_text(to, b"places")?;
    for n in places {
        streams::write_text(to, b" ")?;
        streams::write_number(to, *n)?;
    }
    streams::write_text(to, b"\n")
}

// The answer, and all places that were lent.
fn print_asked<W: Write>(
    to: &mut W,
    timescale: u32,
    kind: u32,
    map: &[u64],
    times: &[u64],
    places: &mut [u64],
) -> io::Result<()>
    ensures grows { Grows (W.contents to.old) (W.contents to.new) }
{
    let start = base::get_or(times, 0, 0);
    let stop = base::get_or(times, 1, 0);
    let why = ask_reason::reason(map, timescale, kind, start, stop, places);
    print_told(to, why)?;
    print_places(to, places)
}

// A caption of two times in units, with so many places lent for the causes, 2,048 at most, each of which holds 7 (request 2.8).
pub fn print_why<W: Write>(
    to: &mut W,
    timescale: u32,
    kind: u32,
    lent: u32,
    map: &[u64],
    times: &[u64],
) -> io::Result<()>
    ensures grows { Grows (W.contents to.old) (W.contents to.new) }
{
    let mut places = [7u64; 2048];
    let n = (lent as usize).min(2048);
    print_asked(to, timescale, kind, map, times, &mut places[..n])
}
