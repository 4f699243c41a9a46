// Whether a map ascends.
ghost use Rattle.streams.specs.Left.{Grows};

use std::io;
use std::io::Write;

// Whether the map is one that request 2.12 admits.
pub fn print_ascends<W: Write>(to: &mut W, map: &[u64]) -> io::Result<()>
    ensures grows { Grows (W.contents to.old) (W.contents to.new) }
{
    if segment::map_bad(map) {
        files_map::print_number(to, b"refused ", 15)?;
        return Ok(());
    }
    if ask_order::ascends(map) {
        streams::write_text(to, b"ascends yes\n")
    } else {
        streams::write_text(to, b"ascends no\n")
    }
}
