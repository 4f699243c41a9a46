// The question by its op.
ghost use Rattle.std.specs.Prelude.{◌≡◌, IfOk};
ghost use Rattle.replay_json.specs.Query.{is_text_query};
ghost use Rattle.streams.specs.Left.{Grows};

use crate::printing::{print_read, print_written};
use std::io;
use std::io::Write;

// A case as `replay` has it: the words a to d of its head, the numbers of X, and the bytes of X and Y. Op 6 writes the map of X
// with the path Y, op 7 reads the text X. Tells whether the op is one of the two; nothing is printed where it is not.
pub fn answer<W: Write>(
    to: &mut W,
    op: u32,
    a: u32,
    b: u32,
    c: u32,
    d: u32,
    map: &[u64],
    x: &[u8],
    y: &[u8],
) -> io::Result<bool>
    ensures value { IfOk result (λ r. r ≡ is_text_query op) }
    ensures grows { Grows (W.contents to.old) (W.contents to.new) }
{
    match op {
        6 => print_written(to, map, a, b, c, y, d)?,
        7 => print_read(to, x)?,
        _ => return Ok(false),
    }
    Ok(true)
}
