// The C functions over texts, called as a caller from C does, over document 01's worked map and texts worked out by hand. `stdout` pins each number, each code and
// each place: every place holds a number of its own before the call, so that what is not written is seen too. `c_api_questions` and `c_api_maps` call the others.
#![tactic(auto)]

mod rows;
mod sessions;
mod texts;

use std::io;
use std::io::Write;

fn main(rt: HostRuntime) -> io::Result<()> {
    let mut to = io::writer(&rt);
    let map = [0u64, 3, 0, 3, 0, 3003, 6, 10, 6006, 4, 3003, 4004];
    rows::show(&mut to)?;
    sessions::show(&mut to, &map)?;
    texts::show(&mut to, &map)?;
    to.flush()
}
