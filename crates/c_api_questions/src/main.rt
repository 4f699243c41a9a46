// The C functions over a sheet, and those that ask about a map, called as a caller from C does, over document 01's worked sheet and map. `stdout` pins each number,
// each code and each place: every place holds a number of its own before the call, so that what is not written is seen too.
#![tactic(auto)]

mod conversions;
mod questions;
mod sheets;

ghost use Rattle.streams.specs.Left.{Grows};

use std::io;
use std::io::Write;

fn ask<W: Write>(to: &mut W, map: &[u64]) -> io::Result<()>
    ensures grows { Grows (W.contents to.old) (W.contents to.new) }
{
    questions::why(to, map, 5, 25)?;
    questions::why(to, map, 21, 25)?;
    questions::why(to, map, 20, 21)?;
    questions::why(to, map, 12, 20)?;
    questions::why(to, map, 68719476737, 0)?;
    questions::census(to, map, 30000, 4, 40)?;
    questions::census(to, map, 0, 4, 40)?;
    questions::delay(to, map, &[12, 16, 0, 14], 100)?;
    questions::delay(to, map, &[12, 16, 0, 14], 12)?;
    questions::delay(to, map, &[12, 16], 0)?;
    questions::delay(to, map, &[5u64; 8192], 1)?;
    questions::delay(to, map, &[5u64; 8194], 1)?;
    questions::rough(to, map, 0, 10, 20, 30)?;
    questions::rough(to, map, 3003, 4000, 5000, 6006)?;
    questions::rough(to, map, 3002, 3003, 5000, 5001)?;
    questions::rough(to, map, 2, 1, 5, 6)
}

fn convert<W: Write>(to: &mut W) -> io::Result<()>
    ensures grows { Grows (W.contents to.old) (W.contents to.new) }
{
    conversions::ticks(to, 25, 30000, 0)?;
    conversions::ticks(to, 25, 30000, 1)?;
    conversions::ticks(to, 68719476737, 30000, 1)?;
    conversions::ticks(to, 25, 0, 3)?;
    conversions::units(to, 7, 30000, 0)?;
    conversions::units(to, 7, 30000, 1)?;
    conversions::units(to, 9007199254740993, 30000, 0)
}

fn main(rt: HostRuntime) -> io::Result<()> {
    let mut to = io::writer(&rt);
    let map = [0u64, 3, 0, 3, 0, 3003, 6, 10, 6006, 4, 3003, 4004];
    sheets::show(&mut to)?;
    convert(&mut to)?;
    ask(&mut to, &map)?;
    to.flush()
}
