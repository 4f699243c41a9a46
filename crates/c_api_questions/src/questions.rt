// Questions about document 01's map: codes and places told to a caller from C. Each place holds a number of its own before.
ghost use Rattle.streams.specs.Left.{Grows};

use number_lines::print_line;
use std::io;
use std::io::Write;

// Why a caption of start to stop (ASS) is kept or dropped: number, fate, place, ticks cut off, and two causes.
pub fn why<W: Write>(to: &mut W, map: &[u64], start: u64, stop: u64) -> io::Result<()>
    ensures grows { Grows (W.contents to.old) (W.contents to.new) }
{
    let mut causes = [7u64; 2];
    let mut fate: u64 = 91;
    let mut place: u64 = 92;
    let mut start_cut: u64 = 93;
    let mut end_cut: u64 = 94;
    let number = c_api::retimer_why(
        map,
        30000,
        0,
        start,
        stop,
        &mut causes,
        &mut fate,
        &mut place,
        &mut start_cut,
        &mut end_cut,
    );
    print_line(
        to,
        b"why",
        &[
            u64::from(number),
            fate,
            place,
            start_cut,
            end_cut,
            causes[0],
            causes[1],
        ],
    )?;
    Ok(())
}

// How many starts of a caption of this length survive: number, shifted, clipped, dropped.
pub fn census<W: Write>(
    to: &mut W,
    map: &[u64],
    timescale: u32,
    length: u64,
    count: u64,
) -> io::Result<()>
    ensures grows { Grows (W.contents to.old) (W.contents to.new) }
{
    let mut shifted: u64 = 91;
    let mut clipped: u64 = 92;
    let mut dropped: u64 = 93;
    let number = c_api::retimer_census(
        map,
        timescale,
        0,
        length,
        count,
        &mut shifted,
        &mut clipped,
        &mut dropped,
    );
    print_line(
        to,
        b"census",
        &[u64::from(number), shifted, clipped, dropped],
    )?;
    Ok(())
}

// The delay and the numbers behind it.
fn print_delay<W: Write>(to: &mut W, delay: i64, numbers: &[u64]) -> io::Result<()>
    ensures grows { Grows (W.contents to.old) (W.contents to.new) }
{
    match delay {
        -6 => print_line(to, b" -6", numbers)?,
        0 => print_line(to, b" 0", numbers)?,
        91 => print_line(to, b" 91", numbers)?,
        _ => print_line(to, b" another", numbers)?,
    };
    Ok(())
}

// The delay that loses least: number, delay, loss, tries, how far off.
pub fn delay<W: Write>(to: &mut W, map: &[u64], captions: &[u64], budget: u32) -> io::Result<()>
    ensures grows { Grows (W.contents to.old) (W.contents to.new) }
{
    let mut delay: i64 = 91;
    let mut loss: u32 = 92;
    let mut tried: u32 = 93;
    let mut off: u32 = 94;
    let number = c_api::retimer_best_delay(
        map, 30000, 0, captions, budget, &mut delay, &mut loss, &mut tried, &mut off,
    );
    streams::write_text(to, b"delay ")?;
    streams::write_number(to, u64::from(number))?;
    print_delay(
        to,
        delay,
        &[u64::from(loss), u64::from(tried), u64::from(off)],
    )
}

// A start and an end known between two ticks each: number and judgement.
pub fn rough<W: Write>(
    to: &mut W,
    map: &[u64],
    start_low: u64,
    start_high: u64,
    end_low: u64,
    end_high: u64,
) -> io::Result<()>
    ensures grows { Grows (W.contents to.old) (W.contents to.new) }
{
    let mut judgement: u64 = 91;
    let number = c_api::retimer_rough(
        map,
        start_low,
        start_high,
        end_low,
        end_high,
        &mut judgement,
    );
    print_line(to, b"rough", &[u64::from(number), judgement])?;
    Ok(())
}
