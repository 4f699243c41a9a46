// A session taken up, printed.
ghost use Rattle.std.specs.Prelude.{◌≡◌, IfOk};
ghost use Rattle.spec_parking.specs.parking.Parkings.{take_number};
ghost use Rattle.streams.specs.Left.{Grows};

use number_lines::print_line;
use session_state::Session;
use std::io;
use std::io::Write;

// What words 2 to 16 of block 0 have.
fn numbers(session: Session) -> [u64; 15] {
    let config = session.config;
    let counts = session.counts;
    let columns = session.columns;
    [
        u64::from(config.kind),
        u64::from(config.timescale),
        u64::from(session.ended),
        u64::from(session.outcome),
        u64::from(session.taken),
        u64::from(session.lines),
        u64::from(counts.shifted),
        u64::from(counts.clipped),
        u64::from(counts.dropped),
        u64::from(counts.passed),
        u64::from(columns.events),
        columns.columns as u64,
        columns.start as u64,
        columns.end as u64,
        session.held_len as u64,
    ]
}

// The line `taken` with fifteen numbers, the line `held` with a length, the held bytes and a line end.
fn print_session<W: Write>(to: &mut W, session: Session) -> io::Result<()>
    ensures grows { Grows (W.contents to.old) (W.contents to.new) }
{
    let ns = numbers(session);
    print_line(to, b"taken", &ns)?;
    let n = session.held_len;
    print_line(to, b"held", &[n as u64])?;
    let held = session.held;
    streams::write_text(to, base::front(&held, n))?;
    streams::write_text(to, b"\n")
}

// Prints the session that the blocks name, or `refused` and the number that it answers.
pub fn print_taken<W: Write>(to: &mut W, bytes: &[u8]) -> io::Result<u32>
    ensures value { IfOk result (λ r. r ≡ take_number bytes.now) }
    ensures grows { Grows (W.contents to.old) (W.contents to.new) }
{
    let up = parking::take_up(bytes);
    let number = up.number;
    if number != 0 {
        return files_map::print_number(to, b"refused ", number);
    }
    let session = up.session;
    print_session(to, session)?;
    Ok(0)
}
