// Reads `sheet.bin`, `trim.txt` and `times.txt`, and prints what becomes of a caption with the times of each line, and why; or `refused` and the number.
#![tactic(auto)]

use std::io;
use std::io::Write;

fn main(rt: HostRuntime) -> io::Result<()> {
    let sheet = files_map::load(&rt, b"", b"sheet.bin")?;
    let list = files_map::load(&rt, b"", b"trim.txt")?;
    let times = files_map::load(&rt, b"", b"times.txt")?;
    let mut to = io::writer(&rt);
    files_why::tell(&mut to, sheet.held(), list.held(), times.held())?;
    to.flush()
}
