// Reads `sheet.bin` and `trim.txt` and goes through the map as records: prints it as `mapper` does, then for ticks of captions the place of the
// segment that they meet, or `none`; last a list that is refused. `stdout` was worked out by hand from document 01: the map stands in its
// "Small proofs", a hit is its rule (duration above 0, start before the segment's end, end after its start) on that map.
#![tactic(auto)]

ghost use Rattle.streams.specs.Left.{Grows};

use std::io;
use std::io::Write;

// The map, outward, or `refused` and the number.
fn print_map<W: Write>(to: &mut W, sheet: &[u8], list: &[u8]) -> io::Result<()>
    ensures grows { Grows (W.contents to.old) (W.contents to.new) }
{
    // Kept: (1) no heap: the memory is fixed.
    let mut map = [0u64; 6144];
    let mut work = [0; base::MOST_WORK];
    let answer = map_records_own::through_records(sheet, list, 0, &mut work, 0, 0, &mut map);
    let made = answer.made;
    if made.number != 0 {
        return files_map::print_named(to, b"refused ", u64::from(made.number));
    }
    files_map::print_named(to, b"timescale ", u64::from(made.timescale))?;
    files_map::print_rows(to, files_map::first_segments(&map, made.count))
}

// Two ticks, and the place of the segment that they meet.
fn print_hit<W: Write>(
    to: &mut W,
    sheet: &[u8],
    list: &[u8],
    start: u64,
    end: u64,
) -> io::Result<()>
    ensures grows { Grows (W.contents to.old) (W.contents to.new) }
{
    // Kept: (1) no heap: the memory is fixed.
    let mut map = [0u64; 6144];
    let mut work = [0; base::MOST_WORK];
    let answer = map_records_own::through_records(sheet, list, 0, &mut work, start, end, &mut map);
    streams::write_number(to, start)?;
    streams::write_text(to, b" to ")?;
    streams::write_number(to, end)?;
    let hit = answer.hit;
    match hit {
        None => {
            streams::write_text(to, b": none\n")?;
        }
        Some(met) => {
            files_map::print_named(to, b": segment ", met.place as u64)?;
        }
    }
    Ok(())
}

// Document 01's worked captions (5-25, 12-20, 21-25, 20-21, 0-0, 5-5, 7-5 hundredths, 300 ticks each), then the edges of the two segments.
fn print_hits<W: Write>(to: &mut W, sheet: &[u8], list: &[u8]) -> io::Result<()>
    ensures grows { Grows (W.contents to.old) (W.contents to.new) }
{
    print_hit(to, sheet, list, 1500, 7500)?;
    print_hit(to, sheet, list, 3600, 6000)?;
    print_hit(to, sheet, list, 6300, 7500)?;
    print_hit(to, sheet, list, 6000, 6300)?;
    print_hit(to, sheet, list, 0, 0)?;
    print_hit(to, sheet, list, 1500, 1500)?;
    print_hit(to, sheet, list, 2100, 1500)
}

fn print_edges<W: Write>(to: &mut W, sheet: &[u8], list: &[u8]) -> io::Result<()>
    ensures grows { Grows (W.contents to.old) (W.contents to.new) }
{
    print_hit(to, sheet, list, 3002, 3003)?;
    print_hit(to, sheet, list, 3003, 6006)?;
    print_hit(to, sheet, list, 3003, 6007)?;
    print_hit(to, sheet, list, 10009, 10010)?;
    print_hit(to, sheet, list, 10010, 10011)
}

fn main(rt: HostRuntime) -> io::Result<()> {
    let sheet = files_map::load(&rt, b"", b"sheet.bin")?;
    let list = files_map::load(&rt, b"", b"trim.txt")?;
    let mut to = io::writer(&rt);
    print_map(&mut to, sheet.held(), list.held())?;
    print_hits(&mut to, sheet.held(), list.held())?;
    print_edges(&mut to, sheet.held(), list.held())?;
    let backward = files_map::load(&rt, b"", b"backward.txt")?;
    print_map(&mut to, sheet.held(), backward.held())?;
    print_hit(&mut to, sheet.held(), backward.held(), 1500, 7500)?;
    to.flush()
}
