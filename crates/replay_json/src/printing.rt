// The answers.
ghost use Rattle.streams.specs.Left.{Grows};

use map_json_read::Taken;
use std::io;
use std::io::Write;

fn print_spaced<W: Write>(to: &mut W, n: u64) -> io::Result<()>
    ensures grows { Grows (W.contents to.old) (W.contents to.new) }
{
    streams::write_text(to, b" ")?;
    streams::write_number(to, n)
}

// `output`, the length, the bytes and a line end.
fn print_output<W: Write>(to: &mut W, text: &[u8], n: usize) -> io::Result<()>
    ensures grows { Grows (W.contents to.old) (W.contents to.new) }
{
    streams::write_text(to, b"output")?;
    print_spaced(to, n as u64)?;
    streams::write_text(to, b"\n")?;
    streams::write_text(to, base::front(text, n))?;
    streams::write_text(to, b"\n")
}

// A map written as JSON.
pub fn print_written<W: Write>(
    to: &mut W,
    map: &[u64],
    timescale: u32,
    num: u32,
    den: u32,
    path: &[u8],
    frames: u32,
) -> io::Result<()>
    ensures grows { Grows (W.contents to.old) (W.contents to.new) }
{
    // Kept: (1) no heap: the memory is fixed.
    let mut room = [0u8; 255141];
    let w = map_json_write::write_map(map, timescale, num, den, path, frames, &mut room);
    if w.number != 0 {
        files_map::print_number(to, b"refused ", w.number)?;
        return Ok(());
    }
    print_output(to, &room, w.written)
}

// `map` and its four numbers, `path` with its length, the path and a line end.
fn print_head<W: Write>(to: &mut W, t: Taken, path: &[u8]) -> io::Result<()>
    ensures grows { Grows (W.contents to.old) (W.contents to.new) }
{
    streams::write_text(to, b"map")?;
    print_spaced(to, u64::from(t.timescale))?;
    print_spaced(to, u64::from(t.rate_num))?;
    print_spaced(to, u64::from(t.rate_den))?;
    print_spaced(to, u64::from(t.frames))?;
    streams::write_text(to, b"\npath")?;
    print_spaced(to, t.path_len as u64)?;
    streams::write_text(to, b"\n")?;
    streams::write_text(to, base::front(path, t.path_len))?;
    streams::write_text(to, b"\n")
}

// A map read from JSON.
pub fn print_read<W: Write>(to: &mut W, text: &[u8]) -> io::Result<()>
    ensures grows { Grows (W.contents to.old) (W.contents to.new) }
{
    // Kept: (1) no heap: the memory is fixed.
    let mut map = [0u64; 6144];
    let mut path = [0u8; 1024];
    let t = map_json_read::read_map(text, &mut map, &mut path);
    let number = t.number;
    if number != 0 {
        files_map::print_number(to, b"refused ", number)?;
        return Ok(());
    }
    print_head(to, t, &path)?;
    files_map::print_rows(to, base::front(&map, t.places))
}
