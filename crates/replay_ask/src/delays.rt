// The delay that loses least.
ghost use Rattle.streams.specs.Left.{Grows};

use std::io;
use std::io::Write;

fn print_signed<W: Write>(to: &mut W, n: i64) -> io::Result<()>
    ensures grows { Grows (W.contents to.old) (W.contents to.new) }
{
    if n < 0 {
        streams::write_text(to, b"-")?;
    }
    streams::write_number(to, n.unsigned_abs())
}

fn print_next<W: Write>(to: &mut W, n: u32) -> io::Result<()>
    ensures grows { Grows (W.contents to.old) (W.contents to.new) }
{
    streams::write_text(to, b" ")?;
    streams::write_number(to, u64::from(n))
}

// The line `delay` with the delay, its loss, the tries and how far off it can be, or `refused` and the number. `many` has the captions.
pub fn print_delay<W: Write>(
    to: &mut W,
    map: &[u64],
    timescale: u32,
    kind: u32,
    budget: u32,
    many: &[u64],
) -> io::Result<()>
    ensures grows { Grows (W.contents to.old) (W.contents to.new) }
{
    let d = ask_delay::best_delay(map, timescale, kind, many, budget);
    let number = d.number;
    if number != 0 {
        files_map::print_number(to, b"refused ", number)?;
        return Ok(());
    }
    streams::write_text(to, b"delay ")?;
    print_signed(to, d.delay)?;
    print_next(to, d.loss)?;
    print_next(to, d.tried)?;
    print_next(to, d.off)?;
    streams::write_text(to, b"\n")
}
