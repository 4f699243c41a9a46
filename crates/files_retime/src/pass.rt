// One pass over a caption text.
ghost use Rattle.std.specs.Prelude.{◌≡◌, length, IfOk};
ghost use Rattle.spec_session.specs.session.SessionCalls.{finish_call, answer_of};
ghost use Rattle.files_retime.specs.Retimed.{Passes};
ghost use Rattle.streams.specs.Left.{Drains, Grows};

use session_state::Session;
use std::io;
use std::io::{Read, Write};

// Writes the first n bytes, or nothing where the pass is dry.
fn print_text<W: Write>(to: &mut W, writing: bool, out: &[u8], n: usize) -> io::Result<()>
    ensures grows { Grows (W.contents to.old) (W.contents to.new) }
{
    if writing {
        streams::write_text(to, base::front(out, n))?;
    }
    Ok(())
}

// The end of the text.
fn end<W: Write>(
    to: &mut W,
    session: Session,
    map: &[u64],
    writing: bool,
    out: &mut [u8],
    warnings: &mut [u64],
) -> io::Result<u32>
    ensures value { IfOk result (λ r. r ≡ (answer_of session (finish_call map.now (length out.old) (length warnings.old))).number) }
    ensures grows { Grows (W.contents to.old) (W.contents to.new) }
{
    let last = session::finish(session, map, out, warnings);
    print_text(to, writing, out, last.written)?;
    Ok(last.number)
}

// The text of a file from where it stands, in pieces: the number of the first call that is not answered by 0, or 0. What
// the file holds no contract can say. A text of more pieces than a session takes bytes ends there.
pub fn pass<R: Read, W: Write>(
    to: &mut W,
    from: &mut R,
    session: Session,
    map: &[u64],
    writing: bool,
) -> io::Result<u32>
    ensures value { IfOk result (λ r. Passes session map.now r) }
    ensures grows { Grows (W.contents to.old) (W.contents to.new) }
    ensures drains { Drains (R.remaining from.old) (R.remaining from.new) }
{
    // Kept: (1) no heap: the memory is fixed.
    let mut out = [0u8; 32768];
    let mut warnings = [0u64; 4096];
    let mut piece = [0u8; 1024];
    let mut at = session;
    for _ in 0..1073741825u32 {
        let n = files_map::read_full(from, &mut piece)?;
        if n == 0 {
            return end(to, at, map, writing, &mut out, &mut warnings);
        }
        let fed = session::feed(at, map, &piece[..n], &mut out, &mut warnings);
        print_text(to, writing, &out, fed.written)?;
        if fed.number != 0 {
            return Ok(fed.number);
        }
        at = fed.session;
    }
    end(to, at, map, writing, &mut out, &mut warnings)
}
