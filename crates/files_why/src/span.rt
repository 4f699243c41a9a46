// Times and segments in words.
ghost use Rattle.streams.specs.Left.{Grows};

use crate::question::Question;
use std::io;
use std::io::Write;

fn print_units<W: Write>(to: &mut W, units: u64, kind: u32, mark: u8) -> io::Result<()>
    ensures grows { Grows (W.contents to.old) (W.contents to.new) }
{
    // Kept: (1) no heap: the memory is fixed.
    let mut text = [0u8; 64];
    let n = caption_stamp::write_time(units, kind, mark, &mut text);
    streams::write_text(to, base::front(&text, n))
}

// How long so many ticks are, rounded up; past the limit of a conversion that is not said.
pub fn print_length<W: Write>(to: &mut W, ticks: u64, timescale: u32, q: Question) -> io::Result<()>
    ensures grows { Grows (W.contents to.old) (W.contents to.new) }
{
    match caption_time::ticks_to_units_ceil(ticks, timescale, q.kind) {
        Ok(units) => print_units(to, units, q.kind, q.mark),
        Err(_) => streams::write_text(to, b"more than 2^53 ticks"),
    }
}

// From a tick, rounded down, to a tick, rounded up.
fn print_span<W: Write>(
    to: &mut W,
    from: u64,
    until: u64,
    timescale: u32,
    q: Question,
) -> io::Result<()>
    ensures grows { Grows (W.contents to.old) (W.contents to.new) }
{
    let units = caption_time::ticks_to_units_floor(from, timescale, q.kind).unwrap_or(0);
    print_units(to, units, q.kind, q.mark)?;
    streams::write_text(to, b" to ")?;
    print_length(to, until, timescale, q)
}

// The segment at a place of the list, counted from 1, and its times: `segment 2 of 3 (.. to .. of the recording, .. to .. of the cut)`.
pub fn print_segment<W: Write>(
    to: &mut W,
    map: &[u64],
    place: usize,
    timescale: u32,
    q: Question,
) -> io::Result<()>
    ensures grows { Grows (W.contents to.old) (W.contents to.new) }
{
    if 1024 <= place {
        return Ok(());
    }
    streams::write_text(to, b"segment ")?;
    streams::write_number(to, (place + 1) as u64)?;
    streams::write_text(to, b" of ")?;
    streams::write_number(to, (map.len() / 6) as u64)?;
    streams::write_text(to, b" (")?;
    let row = base::rest(map, 6 * place);
    let source = base::get_or(row, 2, 0);
    let output = base::get_or(row, 4, 0);
    let duration = base::get_or(row, 5, 0);
    print_span(to, source, source.saturating_add(duration), timescale, q)?;
    streams::write_text(to, b" of the recording, ")?;
    print_span(to, output, output.saturating_add(duration), timescale, q)?;
    streams::write_text(to, b" of the cut)")
}
