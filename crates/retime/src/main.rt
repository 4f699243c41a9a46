// Reads `sheet.bin`, `trim.txt` and `subs.ass`, else `subs.srt`, else `subs.vtt`, and prints the retimed text, or `refused` and the number.
#![tactic(auto)]

use std::io;
use std::io::Write;

fn main(rt: HostRuntime) -> io::Result<()> {
    let sheet = files_map::load(&rt, b"", b"sheet.bin")?;
    let list = files_map::load(&rt, b"", b"trim.txt")?;
    let mut to = io::writer(&rt);
    files_retime::retime(&rt, &mut to, b"", sheet.held(), list.held())?;
    to.flush()
}
