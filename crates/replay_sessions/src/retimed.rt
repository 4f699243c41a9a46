// A text retimed.
ghost use Rattle.streams.specs.Left.{Grows};

use crate::printing::print_output;
use crate::running::run;
use crate::storing::Plan;
use session_counts::Counts;
use std::io;
use std::io::Write;

// The line `retimed` with its four counts.
fn print_counts<W: Write>(to: &mut W, counts: Counts) -> io::Result<()>
    ensures grows { Grows (W.contents to.old) (W.contents to.new) }
{
    let shifted = u64::from(counts.shifted);
    let clipped = u64::from(counts.clipped);
    let dropped = u64::from(counts.dropped);
    let passed = u64::from(counts.passed);
    number_lines::print_line(to, b"retimed", &[shifted, clipped, dropped, passed])?;
    Ok(())
}

// Prints what becomes of the text, or `refused` and the number.
pub fn print_retimed<W: Write>(
    to: &mut W,
    kind: u32,
    timescale: u32,
    map: &[u64],
    text: &[u8],
    plan: Plan,
) -> io::Result<()>
    ensures grows { Grows (W.contents to.old) (W.contents to.new) }
{
    // Kept: (1) no heap: the memory is fixed.
    let mut all = [0u8; 425984];
    let mut notes = [0u8; 262144];
    let opened = session::open(kind, timescale, map);
    if opened.number != 0 {
        files_map::print_number(to, b"refused ", opened.number)?;
        return Ok(());
    }
    let ran = run(opened.session, map, text, plan, true, &mut all, &mut notes);
    if ran.number != 0 {
        files_map::print_number(to, b"refused ", ran.number)?;
        return Ok(());
    }
    print_counts(to, ran.session.counts)?;
    streams::write_text(to, base::front(&notes, ran.noted))?;
    print_output(to, base::front(&all, ran.written))
}
