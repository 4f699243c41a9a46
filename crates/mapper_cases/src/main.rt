// Runs `mapper` over the folders that `cases.txt` names, a line each, and prints each answer under the folder's name.
#![tactic(auto)]

ghost use Rattle.streams.specs.Left.{Grows};

use std::io;
use std::io::Write;
use std::rt::Files;

fn run_case<R: Files, W: Write>(rt: &R, to: &mut W, name: &[u8]) -> io::Result<()>
    ensures grows { Grows (W.contents to.old) (W.contents to.new) }
{
    streams::write_text(to, name)?;
    streams::write_text(to, b":\n")?;
    let sheet = files_map::load(rt, name, b"sheet.bin")?;
    let list = files_map::load(rt, name, b"trim.txt")?;
    files_map::print_map(to, sheet.held(), list.held())?;
    Ok(())
}

// Kept: (1) the rule that no exported function has a `requires`: one loop for the three programs would have to ask of the closure that it is given.
fn run_cases<R: Files, W: Write>(rt: &R, to: &mut W, names: &[u8]) -> io::Result<()>
    ensures grows { Grows (W.contents to.old) (W.contents to.new) }
{
    let mut t = names;
    while 0 < t.len() {
        let n = text::line_length(t);
        let line = base::front(t, n);
        run_case(rt, to, text::text_of(line))?;
        let u = base::rest(t, n);
        t = u;
    }
    Ok(())
}

fn main(rt: HostRuntime) -> io::Result<()> {
    let cases = files_map::load(&rt, b"", b"cases.txt")?;
    let mut to = io::writer(&rt);
    run_cases(&rt, &mut to, cases.held())?;
    to.flush()
}
