// How many starts survive a cut.
ghost use Rattle.streams.specs.Left.{Grows};

use std::io;
use std::io::Write;

// The line `census` with the three counts, or `refused` and the number. `few` has the length and the count of starts.
pub fn print_census<W: Write>(
    to: &mut W,
    map: &[u64],
    timescale: u32,
    kind: u32,
    few: &[u64],
) -> io::Result<()>
    ensures grows { Grows (W.contents to.old) (W.contents to.new) }
{
    let c = ask_census::census(
        map,
        timescale,
        kind,
        base::get_or(few, 0, 0),
        base::get_or(few, 1, 0),
    );
    let number = c.number;
    if number != 0 {
        files_map::print_number(to, b"refused ", number)?;
        return Ok(());
    }
    streams::write_text(to, b"census ")?;
    streams::write_number(to, c.shifted)?;
    streams::write_text(to, b" ")?;
    streams::write_number(to, c.clipped)?;
    streams::write_text(to, b" ")?;
    streams::write_number(to, c.dropped)?;
    streams::write_text(to, b"\n")
}
