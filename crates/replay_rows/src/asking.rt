// The question by its op.
ghost use Rattle.std.specs.Prelude.{◌≡◌, eqb, IfOk};
ghost use Rattle.streams.specs.Left.{Grows};

use crate::rows::print_cues;
use std::io;
use std::io::Write;

// A case as `replay` has it: the words b and c of its head, and the bytes Z. Prints the answer to op 16: the captions of the text Z of the kind b, with c places lent for
// rows. Tells whether the op is this one; nothing is printed where it is not.
pub fn answer<W: Write>(to: &mut W, op: u32, kind: u32, lent: u32, text: &[u8]) -> io::Result<bool>
    ensures value { IfOk result (λ r. r ≡ eqb op 16) }
    ensures grows { Grows (W.contents to.old) (W.contents to.new) }
{
    if op == 16 {
        print_cues(to, kind, text, lent)?;
        return Ok(true);
    }
    Ok(false)
}
