// Answers a stream of cases on standard input: eight 32-bit words `op a b c d lenX lenY lenZ`, then the bytes X, Y and Z.
// Ops: 1 a trim list, 2 a map, 3 a text retimed, 4 a conversion, 5 a text retimed through a given map; a map as JSON (crate `replay_json`): 6 a given one
// written, 7 one read; what is asked about a given map (crate `replay_ask`): 8 what becomes of a caption and why, 9 what is sure of a caption whose times are
// known only roughly, 10 whether it ascends, 11 how many starts of a caption survive the cut, 12 the delay that loses least; and (crate `replay_sessions`) 13 a text
// retimed with parkings, 14 a session taken up, 15 a session parked; and (crate `replay_rows`) 16 the captions of the text Z of the kind b as rows, c places being
// lent for them, 0 as many as it needs. The answers to 1 to 7 have the form of the program that this one is compared with. Word c of
// ops 2 and 3 is the number of work bytes lent, 0 being 131,072. Word d of ops 3 and 5 says how the text is cut into pieces; the answer is the same for each.
#![tactic(auto)]

mod answer;
mod input;

ghost use Rattle.streams.specs.Left.{Drains, Grows};

use std::io;
use std::io::{Read, Write};

// One case, of which the head is read; its parts go to the lent slices. `too large` where one does not fit.
fn run_case<R: Read, W: Write>(
    from: &mut R,
    to: &mut W,
    head: &[u8],
    x: &mut [u8],
    y: &mut [u8],
    z: &mut [u8],
) -> io::Result<()>
    ensures grows { Grows (W.contents to.old) (W.contents to.new) }
    ensures drains { Drains (R.remaining from.old) (R.remaining from.new) }
{
    let n = checked_blocks::word(head, 5) as usize;
    let m = checked_blocks::word(head, 6) as usize;
    let l = checked_blocks::word(head, 7) as usize;
    if !input::take_parts(from, x, n, y, m, z, l)? {
        return streams::write_text(to, b"too large\n");
    }
    answer::answer(
        to,
        head,
        base::front(x, n),
        base::front(y, m),
        base::front(z, l),
    )
}

// Case by case, up to the end of the input.
fn run_cases<R: Read, W: Write>(
    from: &mut R,
    to: &mut W,
    x: &mut [u8],
    y: &mut [u8],
    z: &mut [u8],
) -> io::Result<()>
    ensures grows { Grows (W.contents to.old) (W.contents to.new) }
    ensures drains { Drains (R.remaining from.old) (R.remaining from.new) }
{
    for k in 0..1099511627776u64 {
        // Kept: (1) no heap: the memory is fixed.
        let mut head = [0u8; 32];
        let n = files_map::read_full(from, &mut head)?;
        if n < 32 {
            return Ok(());
        }
        files_map::print_named(to, b"case ", k)?;
        run_case(from, to, &head, x, y, z)?;
    }
    Ok(())
}

fn main(rt: HostRuntime) -> io::Result<()> {
    // Kept: (1) no heap: the memory is fixed.
    let mut x = [0u8; 300000];
    let mut y = [0u8; 70000];
    let mut z = [0u8; 131072];
    let mut from = rt.reader();
    let mut to = io::writer(&rt);
    run_cases(&mut from, &mut to, &mut x, &mut y, &mut z)?;
    to.flush()
}
