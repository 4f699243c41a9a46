// A text and a number, written.
ghost use Rattle.std.specs.Prelude.{◌≢◌, OnOk, IfErr};
ghost use Rattle.std.specs.IoError.{error_kind};
ghost use Rattle.std.specs.Io.{WritesAtMost};
ghost use Rattle.std.specs.Io.KnownBytes.{Appends, WriteAppends};
ghost use Rattle.spec_json.specs.json.Quote.{decimal};
ghost use Rattle.streams.specs.Left.{Grows, GrowsByFront};

use std::io;
use std::io::{ErrorKind, Write};

// One write: how many bytes were taken, none where it was interrupted. A write that takes none and was not interrupted is an error.
fn write_some<W: Write>(to: &mut W, text: &[u8]) -> io::Result<usize>
    ensures bound { WritesAtMost result text.now }
    ensures bytes { WriteAppends (W.contents to.old) (W.contents to.new) result text.now }
    ensures retried { IfErr result (λ e. error_kind e ≢ ErrorKind.Interrupted) }
{
    match to.write(text) {
        Ok(0) => Err(ErrorKind::WriteZero.into()),
        Ok(n) => Ok(n),
        Err(e) if e.kind() == ErrorKind::Interrupted => Ok(0),
        Err(e) => Err(e),
    }
}

// Writes the whole text. After an error the writer has what it had, and behind that the first bytes of the text, as many as it took.
// Each function must end, so the writes are counted, as std counts them.
pub fn write_text<W: Write>(to: &mut W, text: &[u8]) -> io::Result<()>
    ensures whole { OnOk result (Appends (W.contents to.old) (W.contents to.new) text.now) }
    ensures front { GrowsByFront (W.contents to.old) (W.contents to.new) text.now }
    ensures retried { IfErr result (λ e. error_kind e ≢ ErrorKind.Interrupted) }
    ensures grows { Grows (W.contents to.old) (W.contents to.new) }
{
    let mut done = 0;
    for _ in 0..u64::MAX {
        if text.len() <= done {
            return Ok(());
        }
        done += write_some(to, &text[done..])?;
    }
    Err(ErrorKind::TimedOut.into())
}

// Writes the decimal digits of a number. After an error the first of them are written, as with a text.
pub fn write_number<W: Write>(to: &mut W, n: u64) -> io::Result<()>
    ensures whole { OnOk result (Appends (W.contents to.old) (W.contents to.new) (decimal n)) }
    ensures front { GrowsByFront (W.contents to.old) (W.contents to.new) (decimal n) }
    ensures retried { IfErr result (λ e. error_kind e ≢ ErrorKind.Interrupted) }
    ensures grows { Grows (W.contents to.old) (W.contents to.new) }
{
    // Kept: (1) no heap: the memory is fixed.
    let mut room = [0u8; 20];
    let w = caption_stamp::digits(n);
    caption_stamp::last_digits(&mut room, n, w);
    write_text(to, base::front(&room, w))
}
