// The rows of a text, printed.
ghost use Rattle.std.specs.Prelude.{◌≤◌};
ghost use Rattle.streams.specs.Left.{Grows};

use std::io;
use std::io::Write;

// How many of 98,304 places a case lends: 0 is all, six for each caption that a text of a case can have.
fn lent_places(c: u32) -> usize
    ensures { result ≤ 98304 }
{
    if c == 0 {
        98304
    } else {
        (c as usize).min(98304)
    }
}

// The line `cues` with the number of captions and the line of the fault, a line for each caption, and the line `fault` with its number where there is one; or `refused 16`.
fn print_read<W: Write>(to: &mut W, kind: u32, text: &[u8], rows: &mut [u64]) -> io::Result<()>
    ensures grows { Grows (W.contents to.old) (W.contents to.new) }
{
    // Kept: (1) no heap: the memory is fixed.
    let mut told = [0u64; 2];
    let number = caption_rows::read_cues(kind, text, rows, &mut told);
    if number == 16 {
        files_map::print_number(to, b"refused ", number)?;
        return Ok(());
    }
    let count = base::get_or(&told, 0, 0);
    streams::write_text(to, b"cues ")?;
    streams::write_number(to, count)?;
    streams::write_text(to, b" ")?;
    streams::write_number(to, base::get_or(&told, 1, 0))?;
    streams::write_text(to, b"\n")?;
    files_map::print_rows(to, files_map::first_segments(rows, count as usize))?;
    if number != 0 {
        files_map::print_number(to, b"fault ", number)?;
    }
    Ok(())
}

// The captions of a text, with so many places lent for rows.
pub fn print_cues<W: Write>(to: &mut W, kind: u32, text: &[u8], lent: u32) -> io::Result<()>
    ensures grows { Grows (W.contents to.old) (W.contents to.new) }
{
    // Kept: (1) no heap: the memory is fixed.
    let mut rows = [0u64; 98304];
    let n = lent_places(lent);
    print_read(to, kind, text, &mut rows[..n])
}
