// The answer by its op.
ghost use Rattle.std.specs.Prelude.{◌≡◌, IfOk};
ghost use Rattle.replay_sessions.specs.Op.{is_text};
ghost use Rattle.streams.specs.Left.{Grows};

use crate::parked::print_parked;
use crate::retimed::print_retimed;
use crate::storing::{plain, with_parkings};
use replay_taken::print_taken;
use std::io;
use std::io::Write;

// A case as `replay` has it: the words a to d of its head, the map of X, six numbers a segment, and the bytes X, Y and Z.
// Prints the answer to an op about a text or a session: 5 the text Z retimed, 13 the same with parkings (request 2.10), 14 the session of the blocks X, 15 the blocks of
// the session that Z leaves. Tells whether the op is such a one; nothing is printed where it is not.
pub fn answer<W: Write>(
    to: &mut W,
    op: u32,
    a: u32,
    b: u32,
    c: u32,
    d: u32,
    map: &[u64],
    x: &[u8],
    y: &[u8],
    z: &[u8],
) -> io::Result<bool>
    ensures value { IfOk result (λ r. r ≡ is_text op) }
    ensures grows { Grows (W.contents to.old) (W.contents to.new) }
{
    match op {
        5 => print_retimed(to, b, a, map, z, plain(d))?,
        13 => print_retimed(to, b, a, map, z, with_parkings(d, c, y))?,
        14 => {
            print_taken(to, x)?;
        }
        15 => print_parked(to, b, a, map, z, d, c)?,
        _ => return Ok(false),
    }
    Ok(true)
}
