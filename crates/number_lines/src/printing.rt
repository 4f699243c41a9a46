// A line of a name and numbers, printed.
ghost use Rattle.std.specs.Prelude.{◌≡◌, IfOk};
ghost use Rattle.number_lines.specs.Line.{printed_length};
ghost use Rattle.streams.specs.Left.{Grows};

use std::io;
use std::io::Write;

// Prints the line, and answers how many bytes it has; where these are more than 512, nothing and 0.
pub fn print_line<W: Write>(to: &mut W, name: &[u8], numbers: &[u64]) -> io::Result<usize>
    ensures value { IfOk result (λ r. r ≡ printed_length name.now numbers.now) }
    ensures grows { Grows (W.contents to.old) (W.contents to.new) }
{
    // Kept: (1) no heap: the memory is fixed.
    let mut out = [0u8; 512];
    let n = crate::writing::line(&mut out, name, numbers);
    streams::write_text(to, base::front(&out, n))?;
    Ok(n)
}
