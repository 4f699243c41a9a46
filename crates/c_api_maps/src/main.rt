// The C functions over maps as the Rust cutter stores them, called as a caller from C does. `stdout` pins each number, each code and each place: every place holds
// a number of its own before the call, so that what is not written is seen too.
#![tactic(auto)]

mod maptexts;

use std::io;
use std::io::Write;

fn main(rt: HostRuntime) -> io::Result<()> {
    let mut to = io::writer(&rt);
    maptexts::show(&mut to)?;
    to.flush()
}
