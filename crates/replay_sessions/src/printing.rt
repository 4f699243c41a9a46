// Bytes printed.
ghost use Rattle.streams.specs.Left.{Grows};

use std::io;
use std::io::Write;

// The line `output` with their length, then the bytes and a line end.
pub fn print_output<W: Write>(to: &mut W, bytes: &[u8]) -> io::Result<()>
    ensures grows { Grows (W.contents to.old) (W.contents to.new) }
{
    number_lines::print_line(to, b"output", &[bytes.len() as u64])?;
    streams::write_text(to, bytes)?;
    streams::write_text(to, b"\n")
}
