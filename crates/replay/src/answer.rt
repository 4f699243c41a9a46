// The answer to a case, by its op.
ghost use Rattle.streams.specs.Left.{Grows};

use refusals::Refusal;
use replay_maps::{asks, map_texts, print_made, texts, through_made};
use std::io;
use std::io::Write;

// A first and a last frame in a line.
fn print_range<W: Write>(to: &mut W, range: &[u32]) -> io::Result<()>
    ensures grows { Grows (W.contents to.old) (W.contents to.new) }
{
    let [first, last] = *range else {
        return Ok(());
    };
    streams::write_number(to, u64::from(first))?;
    streams::write_text(to, b" ")?;
    streams::write_number(to, u64::from(last))?;
    streams::write_text(to, b"\n")
}

fn print_ranges<W: Write>(to: &mut W, ranges: &[u32], count: usize) -> io::Result<()>
    ensures grows { Grows (W.contents to.old) (W.contents to.new) }
{
    for range in ranges.chunks_exact(2).take(count) {
        print_range(to, range)?;
    }
    Ok(())
}

fn print_list<W: Write>(to: &mut W, list: &[u8]) -> io::Result<()>
    ensures grows { Grows (W.contents to.old) (W.contents to.new) }
{
    // Kept: (1) no heap: the memory is fixed.
    let mut ranges = [0u32; 2048];
    match trim::parse(list, &mut ranges) {
        Err(r) => {
            files_map::print_number(to, b"refused ", u32::from(r))?;
            Ok(())
        }
        Ok(count) => {
            files_map::print_named(to, b"ranges ", count as u64)?;
            print_ranges(to, &ranges, count)
        }
    }
}

// The kind whose unit is u; there is none for any other.
// Kept: the conversions answer for every number (`caption_time::units_to_ticks`), so 3 names no kind.
fn kind_of(u: u32) -> u32 {
    match u {
        100 => 0,
        1000 => 1,
        _ => 3,
    }
}

fn print_converted<W: Write>(to: &mut W, head: &[u8], x: &[u8]) -> io::Result<()>
    ensures grows { Grows (W.contents to.old) (W.contents to.new) }
{
    let low = u64::from(checked_blocks::word(x, 0));
    let high = u64::from(checked_blocks::word(x, 1));
    let value = low + 4294967296 * high;
    let timescale = checked_blocks::word(head, 1);
    let kind = kind_of(checked_blocks::word(head, 2));
    let converted = match checked_blocks::word(head, 3) {
        0 => caption_time::units_to_ticks(value, timescale, kind),
        1 => caption_time::ticks_to_units_floor(value, timescale, kind),
        _ => caption_time::ticks_to_units_ceil(value, timescale, kind),
    };
    print_value(to, converted)
}

fn print_value<W: Write>(to: &mut W, value: Result<u64, Refusal>) -> io::Result<()>
    ensures grows { Grows (W.contents to.old) (W.contents to.new) }
{
    match value {
        Ok(v) => files_map::print_named(to, b"converted ", v),
        Err(r) => {
            files_map::print_number(to, b"refused ", u32::from(r))?;
            Ok(())
        }
    }
}

// The answer to a case, or that its op is unknown.
pub fn answer<W: Write>(to: &mut W, head: &[u8], x: &[u8], y: &[u8], z: &[u8]) -> io::Result<()>
    ensures grows { Grows (W.contents to.old) (W.contents to.new) }
{
    let op = checked_blocks::word(head, 0);
    let first = checked_blocks::word(head, 1);
    let second = checked_blocks::word(head, 2);
    let third = checked_blocks::word(head, 3);
    let plan = checked_blocks::word(head, 4);
    match op {
        1 => print_list(to, x)?,
        2 => {
            print_made(to, x, y, first, third)?;
        }
        3 => {
            through_made(to, x, y, first, third, second, plan, z)?;
        }
        4 => print_converted(to, head, x)?,
        5 | 13..=15 => {
            texts(to, head, x, y, z)?;
        }
        6 | 7 => {
            map_texts(to, head, x, y)?;
        }
        8..=12 => {
            asks(to, head, x, y, z)?;
        }
        16 => {
            replay_rows::answer(to, op, second, third, z)?;
        }
        _ => {
            files_map::print_number(to, b"unknown op ", op)?;
        }
    }
    Ok(())
}
