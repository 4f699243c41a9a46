// A map of one segment as the Rust cutter stores it, written and read again.
ghost use Rattle.streams.specs.Left.{Grows};

use number_lines::print_line;
use std::io;
use std::io::Write;

// The four numbers go to `row`.
fn read_into(
    text: &[u8],
    map: &mut [u64],
    path: &mut [u8],
    row: &mut [u32; 4],
    numbers: &mut u64,
    path_length: &mut u64,
) -> u32 {
    let mut timescale = row[0];
    let mut rate_num = row[1];
    let mut rate_den = row[2];
    let mut frames = row[3];
    let number = c_api::retimer_map_read(
        text,
        map,
        path,
        &mut timescale,
        &mut rate_num,
        &mut rate_den,
        &mut frames,
        numbers,
        path_length,
    );
    row[0] = timescale;
    row[1] = rate_num;
    row[2] = rate_den;
    row[3] = frames;
    number
}

fn read<W: Write>(to: &mut W, text: &[u8]) -> io::Result<()>
    ensures grows { Grows (W.contents to.old) (W.contents to.new) }
{
    let mut map = [7u64; 6144];
    let mut path = [7u8; 1024];
    let mut row = [91u32, 92, 93, 94];
    let mut numbers: u64 = 95;
    let mut path_length: u64 = 96;
    let number = read_into(
        text,
        &mut map,
        &mut path,
        &mut row,
        &mut numbers,
        &mut path_length,
    );
    let line = [
        u64::from(number),
        u64::from(row[0]),
        u64::from(row[1]),
        u64::from(row[2]),
        u64::from(row[3]),
        numbers,
        path_length,
        u64::from(path[0]),
        u64::from(path[1]),
        u64::from(path[2]),
        map[0],
        map[1],
        map[2],
        map[3],
        map[4],
        map[5],
        map[6],
    ];
    print_line(to, b"read", &line)?;
    Ok(())
}

// Too few places: 16 for 6,143 numbers and for 1,023 path bytes, and nothing is written.
fn read_short<W: Write>(to: &mut W, text: &[u8]) -> io::Result<()>
    ensures grows { Grows (W.contents to.old) (W.contents to.new) }
{
    let mut map = [7u64; 6143];
    let mut path = [7u8; 1024];
    let mut row = [7u32; 4];
    let mut numbers: u64 = 95;
    let mut path_length: u64 = 96;
    let number = read_into(
        text,
        &mut map,
        &mut path,
        &mut row,
        &mut numbers,
        &mut path_length,
    );
    print_line(
        to,
        b"short",
        &[u64::from(number), map[0], u64::from(path[0]), numbers],
    )?;
    Ok(())
}

fn path_short<W: Write>(to: &mut W, text: &[u8]) -> io::Result<()>
    ensures grows { Grows (W.contents to.old) (W.contents to.new) }
{
    let mut map = [7u64; 6144];
    let mut path = [7u8; 1023];
    let mut row = [7u32; 4];
    let mut numbers: u64 = 95;
    let mut path_length: u64 = 96;
    let number = read_into(
        text,
        &mut map,
        &mut path,
        &mut row,
        &mut numbers,
        &mut path_length,
    );
    print_line(
        to,
        b"short",
        &[u64::from(number), map[0], u64::from(path[0]), path_length],
    )?;
    Ok(())
}

pub fn show<W: Write>(to: &mut W) -> io::Result<()>
    ensures grows { Grows (W.contents to.old) (W.contents to.new) }
{
    let map = [3u64, 6, 3003, 3, 0, 3003];
    // Kept: (1) no heap: the memory is fixed.
    let mut text = [0u8; 400];
    let mut written: u64 = 91;
    let number = c_api::retimer_map_write(
        &map,
        30000,
        30000,
        1001,
        b"a\"",
        10,
        &mut text,
        &mut written,
    );
    print_line(to, b"write", &[u64::from(number), written])?;
    let n = written as usize;
    streams::write_text(to, base::front(&text, n))?;
    read(to, base::front(&text, n))?;
    read(to, b"{}")?;
    read_short(to, base::front(&text, n))?;
    path_short(to, base::front(&text, n))?;
    let few = c_api::retimer_map_write(
        &map,
        30000,
        30000,
        1001,
        b"a",
        10,
        &mut [0u8; 9],
        &mut written,
    );
    print_line(to, b"write", &[u64::from(few), written])?;
    Ok(())
}
