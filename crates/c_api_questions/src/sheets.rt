// Document 01's small sheet: T 30000, 10 frames, decode as display, durations 1001, sync 0, 3 and 6; checked, and its map.
ghost use Rattle.streams.specs.Left.{Grows};

use number_lines::print_line;
use std::io;
use std::io::Write;

// A word, low byte first, at the place `at`.
fn word_at(sheet: &mut [u8], at: usize, word: u32) {
    base::put_at(sheet, at, &word.to_le_bytes());
}

// Record i: its decode index, with the top bit at a sync frame, and the duration 1001.
fn record(sheet: &mut [u8], i: u8, sync: bool) {
    let at = 516 + 8 * (i as usize);
    let top = if sync { 2147483648 } else { 0 };
    word_at(sheet, at, top + u32::from(i));
    word_at(sheet, at + 4, 1001);
}

fn records(sheet: &mut [u8]) {
    for i in 0..10u8 {
        record(sheet, i, matches!(i, 0 | 3 | 6));
    }
}

// Block 0 sums to 30010; block 1 to 1 + 45 + 3 * 2^31 + 10 * 1001 = 2147493704, wrapped at 2^32.
fn fill(sheet: &mut [u8]) {
    word_at(sheet, 4, 30000);
    word_at(sheet, 8, 10);
    word_at(sheet, 508, 30010);
    word_at(sheet, 512, 1);
    records(sheet);
    word_at(sheet, 1020, 2147493704);
}

fn show_map<W: Write>(to: &mut W, sheet: &[u8], list: &[u8], direction: u32) -> io::Result<()>
    ensures grows { Grows (W.contents to.old) (W.contents to.new) }
{
    let mut work = [7u8; 3];
    let mut map = [9u64; 6144];
    let mut timescale: u32 = 91;
    let mut count: u64 = 92;
    let number = c_api::retimer_map(
        sheet,
        list,
        direction,
        &mut work,
        &mut map,
        &mut timescale,
        &mut count,
    );
    print_line(
        to,
        b"map",
        &[
            u64::from(number),
            u64::from(timescale),
            count,
            u64::from(work[1]),
            u64::from(work[2]),
        ],
    )?;
    print_line(
        to,
        b"row",
        &[0, map[0], map[1], map[2], map[3], map[4], map[5]],
    )?;
    print_line(
        to,
        b"row",
        &[1, map[6], map[7], map[8], map[9], map[10], map[11]],
    )?;
    Ok(())
}

pub fn show<W: Write>(to: &mut W) -> io::Result<()>
    ensures grows { Grows (W.contents to.old) (W.contents to.new) }
{
    // Kept: (1) no heap: the memory is fixed.
    let mut sheet = [0u8; 1024];
    fill(&mut sheet);
    let mut work = [7u8; 3];
    let number = c_api::retimer_sheet_check(&sheet, &mut work);
    print_line(
        to,
        b"sheet",
        &[u64::from(number), u64::from(work[1]), u64::from(work[2])],
    )?;
    let good = c_api::retimer_list_check(b"Trim(0,2) ++ Trim(6,8)");
    let bad = c_api::retimer_list_check(b"Trim(2,0)");
    print_line(to, b"list", &[u64::from(good), u64::from(bad)])?;
    show_map(to, &sheet, b"Trim(0,2) ++ Trim(6,8)", 0)?;
    show_map(to, &sheet, b"Trim(2,0)", 0)?;
    show_map(to, &sheet, b"", 2)
}
