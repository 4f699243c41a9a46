// The session that a text leaves, parked.
ghost use Rattle.streams.specs.Left.{Grows};

use crate::printing::print_output;
use crate::running::run;
use crate::storing::plain;
use session_state::Session;
use std::io;
use std::io::Write;

// Prints the blocks of a session, or `refused` and the number.
fn print_blocks<W: Write>(to: &mut W, session: Session) -> io::Result<()>
    ensures grows { Grows (W.contents to.old) (W.contents to.new) }
{
    // Kept: (1) no heap: the memory is fixed.
    let mut bytes = [0u8; 9216];
    let number = parking::park(session, &mut bytes);
    if number != 0 {
        files_map::print_number(to, b"refused ", number)?;
        return Ok(());
    }
    print_output(to, &bytes)
}

// Prints the session after the text as it is parked, or `refused` and the number. `how` is 1 with a finish, 0 without; 2 more, and a session that a fault has ended is parked too.
pub fn print_parked<W: Write>(
    to: &mut W,
    kind: u32,
    timescale: u32,
    map: &[u64],
    text: &[u8],
    cut: u32,
    how: u32,
) -> io::Result<()>
    ensures grows { Grows (W.contents to.old) (W.contents to.new) }
{
    // Kept: (1) no heap: the memory is fixed.
    let mut all = [0u8; 425984];
    let mut notes = [0u8; 262144];
    let opened = session::open(kind, timescale, map);
    if opened.number != 0 {
        files_map::print_number(to, b"refused ", opened.number)?;
        return Ok(());
    }
    let ran = run(
        opened.session,
        map,
        text,
        plain(cut),
        how % 2 == 1,
        &mut all,
        &mut notes,
    );
    if ran.number != 0 && how < 2 {
        files_map::print_number(to, b"refused ", ran.number)?;
        return Ok(());
    }
    print_blocks(to, ran.session)
}
