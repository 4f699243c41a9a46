// The question by its op.
ghost use Rattle.std.specs.Prelude.{◌≡◌, IfOk};
ghost use Rattle.replay_ask.specs.Query.{is_query};
ghost use Rattle.streams.specs.Left.{Grows};

use std::io;
use std::io::Write;

// A case as `replay` has it: the words a, b and c of its head, the map of X, six numbers a segment, and the numbers of Y and of Z.
// Prints the answer to an op about the map: 8 what becomes of a caption of the two times of Y and why, T, kind and the places lent being a, b and c (request 2.8), 9 what is sure
// of a caption known between the four ticks of Y (request 2.11), 10 whether it ascends (request 2.12), 11 how many starts survive the cut (request 2.13), 12 the delay that loses least
// (request 2.14). Tells whether the op is such a one; nothing is printed where it is not.
pub fn answer<W: Write>(
    to: &mut W,
    op: u32,
    a: u32,
    b: u32,
    c: u32,
    map: &[u64],
    few: &[u64],
    many: &[u64],
) -> io::Result<bool>
    ensures value { IfOk result (λ r. r ≡ is_query op) }
    ensures grows { Grows (W.contents to.old) (W.contents to.new) }
{
    match op {
        8 => crate::reasoning::print_why(to, a, b, c, map, few)?,
        9 => crate::roughly::print_rough(to, map, few)?,
        10 => crate::rising::print_ascends(to, map)?,
        11 => crate::starts::print_census(to, map, a, b, few)?,
        12 => crate::delays::print_delay(to, map, a, b, c, many)?,
        _ => return Ok(false),
    }
    Ok(true)
}
