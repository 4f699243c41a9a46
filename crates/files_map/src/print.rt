// The map of a sheet and a list, outward, printed as document 01's "Small proofs" has it.
ghost use Rattle.std.specs.Prelude.{◌≡◌, length, IfOk};
ghost use Rattle.spec_map.specs.segmap.Map.{map_of, map_work};
ghost use Rattle.files_map.specs.Printed.{printed_number};
ghost use Rattle.streams.specs.Left.{Grows};

use std::io;
use std::io::Write;

// Prints a name, a number and a line end.
pub fn print_named<W: Write>(to: &mut W, name: &[u8], n: u64) -> io::Result<()>
    ensures grows { Grows (W.contents to.old) (W.contents to.new) }
{
    streams::write_text(to, name)?;
    streams::write_number(to, n)?;
    streams::write_text(to, b"\n")
}

// The same of a smaller number, which it answers.
pub fn print_number<W: Write>(to: &mut W, name: &[u8], n: u32) -> io::Result<u32>
    ensures value { IfOk result (λ r. r ≡ n) }
    ensures grows { Grows (W.contents to.old) (W.contents to.new) }
{
    print_named(to, name, u64::from(n))?;
    Ok(n)
}

// Numbers in a line, a space between each two.
fn print_row<W: Write>(to: &mut W, row: &[u64]) -> io::Result<()>
    ensures grows { Grows (W.contents to.old) (W.contents to.new) }
{
    for (k, n) in row.iter().enumerate() {
        if 0 < k {
            streams::write_text(to, b" ")?;
        }
        streams::write_number(to, *n)?;
    }
    streams::write_text(to, b"\n")
}

// Prints rows of six numbers, each in a line.
pub fn print_rows<W: Write>(to: &mut W, numbers: &[u64]) -> io::Result<()>
    ensures grows { Grows (W.contents to.old) (W.contents to.new) }
{
    for row in numbers.chunks_exact(6) {
        print_row(to, row)?;
    }
    Ok(())
}

// Prints the map, or `refused` and the number that it answers. The work bytes are for the sheet's check.
pub fn print_map_of<W: Write>(
    to: &mut W,
    sheet: &[u8],
    list: &[u8],
    direction: u32,
    work: &mut [u8],
) -> io::Result<u32>
    ensures value { IfOk result (λ r. r ≡ (map_of sheet.now list.now direction 6144 (length work.old)).number) }
    ensures work_after { work.new ≡ map_work sheet.now direction 6144 work.old }
    ensures grows { Grows (W.contents to.old) (W.contents to.new) }
{
    // Kept: (1) no heap: the memory is fixed.
    let mut map = [0u64; 6144];
    let made = segmap::make(sheet, list, direction, work, &mut map);
    let number = made.number;
    if number != 0 {
        return print_number(to, b"refused ", number);
    }
    print_number(to, b"timescale ", made.timescale)?;
    print_rows(to, crate::segments::first_segments(&map, made.count))?;
    Ok(0)
}

// The same for `mapper`, outward: a sheet above 65,536 bytes is 11.
pub fn print_map<W: Write>(to: &mut W, sheet: &[u8], list: &[u8]) -> io::Result<u32>
    ensures value { IfOk result (λ r. r ≡ printed_number sheet.now list.now) }
    ensures grows { Grows (W.contents to.old) (W.contents to.new) }
{
    if 65536 < sheet.len() {
        return print_number(to, b"refused ", 11);
    }
    // Kept: (1) no heap: the memory is fixed.
    let mut work = [0; base::MOST_WORK];
    print_map_of(to, sheet, list, 0, &mut work)
}
