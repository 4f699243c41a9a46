// Units and ticks, and their refusals.
ghost use Rattle.streams.specs.Left.{Grows};

use number_lines::print_line;
use std::io;
use std::io::Write;

// Units to ticks, and the number.
pub fn ticks<W: Write>(to: &mut W, value: u64, timescale: u32, kind: u32) -> io::Result<()>
    ensures grows { Grows (W.contents to.old) (W.contents to.new) }
{
    let number = c_api::retimer_units_number(value, timescale, kind);
    let ticks = c_api::retimer_units_to_ticks(value, timescale, kind);
    print_line(to, b"ticks", &[u64::from(number), ticks])?;
    Ok(())
}

// Ticks to units, down and up, and the number.
pub fn units<W: Write>(to: &mut W, value: u64, timescale: u32, kind: u32) -> io::Result<()>
    ensures grows { Grows (W.contents to.old) (W.contents to.new) }
{
    let number = c_api::retimer_ticks_number(value, timescale, kind);
    let down = c_api::retimer_ticks_to_units_floor(value, timescale, kind);
    let up = c_api::retimer_ticks_to_units_ceil(value, timescale, kind);
    print_line(to, b"units", &[u64::from(number), down, up])?;
    Ok(())
}
