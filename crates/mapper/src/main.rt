// Reads `sheet.bin` and `trim.txt` and prints the map, or `refused` and the number.
#![tactic(auto)]

use std::io;
use std::io::Write;

fn main(rt: HostRuntime) -> io::Result<()> {
    let sheet = files_map::load(&rt, b"", b"sheet.bin")?;
    let list = files_map::load(&rt, b"", b"trim.txt")?;
    let mut to = io::writer(&rt);
    files_map::print_map(&mut to, sheet.held(), list.held())?;
    to.flush()
}
