// The map of a case that has a text.
ghost use Rattle.std.specs.Prelude.{◌≡◌, ◌≤◌, length, IfOk};
ghost use Rattle.spec_base.specs.base.Limits.{most_work};
ghost use Rattle.spec_sheet.specs.checked_blocks.Block.{word_at};
ghost use Rattle.replay_ask.specs.Query.{is_query};
ghost use Rattle.replay_json.specs.Query.{is_text_query};
ghost use Rattle.replay_sessions.specs.Op.{is_text};
ghost use Rattle.replay_maps.specs.Made.{work_lent, made_number};
ghost use Rattle.streams.specs.Left.{Grows};

use segmap::Made;
use std::io;
use std::io::Write;

// The 64-bit numbers of x, low byte first, at the start of `map`, as many as fit.
fn fill(x: &[u8], map: &mut [u64]) {
    for (place, bytes) in map.iter_mut().zip(x.as_chunks::<8>().0) {
        *place = u64::from_le_bytes(*bytes);
    }
}

// Whether the op is about a text or a session; its answer is printed. The map is the one that x has, six numbers to a segment.
pub fn texts<W: Write>(to: &mut W, head: &[u8], x: &[u8], y: &[u8], z: &[u8]) -> io::Result<bool>
    ensures value { IfOk result (λ r. r ≡ is_text (word_at head.now 0)) }
    ensures grows { Grows (W.contents to.old) (W.contents to.new) }
{
    // Kept: (1) no heap: the memory is fixed.
    let mut map = [0u64; 8750];
    let n = x.len() / 8;
    fill(x, &mut map);
    let op = checked_blocks::word(head, 0);
    let a = checked_blocks::word(head, 1);
    let b = checked_blocks::word(head, 2);
    let c = checked_blocks::word(head, 3);
    let d = checked_blocks::word(head, 4);
    let given = base::front(&map, n);
    replay_sessions::answer(to, op, a, b, c, d, given, x, y, z)
}

// How many work bytes a case lends: 0 is as many as are always enough, and more do not matter.
fn work_lent(c: u32) -> usize
    ensures { (result ≡ work_lent c) × (result ≤ most_work) }
{
    if c == 0 {
        base::MOST_WORK
    } else {
        (c as usize).min(base::MOST_WORK)
    }
}

// Prints the map of a sheet and a list, with so many work bytes, or `refused` and the number that it answers.
pub fn print_made<W: Write>(
    to: &mut W,
    sheet: &[u8],
    list: &[u8],
    direction: u32,
    lent: u32,
) -> io::Result<u32>
    ensures value { IfOk result (λ r. r ≡ made_number sheet.now list.now direction lent) }
    ensures grows { Grows (W.contents to.old) (W.contents to.new) }
{
    // Kept: (1) no heap: the memory is fixed.
    let mut work = [0; base::MOST_WORK];
    let n = work_lent(lent);
    files_map::print_map_of(to, sheet, list, direction, &mut work[..n])
}

// Whether the op is a question about the map that x has; its answer is printed. The numbers of y and z go with it.
pub fn asks<W: Write>(to: &mut W, head: &[u8], x: &[u8], y: &[u8], z: &[u8]) -> io::Result<bool>
    ensures value { IfOk result (λ r. r ≡ is_query (word_at head.now 0)) }
    ensures grows { Grows (W.contents to.old) (W.contents to.new) }
{
    // Kept: (1) no heap: the memory is fixed.
    let mut map = [0u64; 8750];
    let mut few = [0u64; 8];
    let mut many = [0u64; 16384];
    let n = x.len() / 8;
    let m = y.len() / 8;
    let l = z.len() / 8;
    fill(x, &mut map);
    fill(y, &mut few);
    fill(z, &mut many);
    let op = checked_blocks::word(head, 0);
    let a = checked_blocks::word(head, 1);
    let b = checked_blocks::word(head, 2);
    let c = checked_blocks::word(head, 3);
    replay_ask::answer(
        to,
        op,
        a,
        b,
        c,
        base::front(&map, n),
        base::front(&few, m),
        base::front(&many, l),
    )
}

// Whether the op writes the map that x has as JSON, with the path y, or reads the JSON x; its answer is printed.
pub fn map_texts<W: Write>(to: &mut W, head: &[u8], x: &[u8], y: &[u8]) -> io::Result<bool>
    ensures value { IfOk result (λ r. r ≡ is_text_query (word_at head.now 0)) }
    ensures grows { Grows (W.contents to.old) (W.contents to.new) }
{
    // Kept: (1) no heap: the memory is fixed.
    let mut map = [0u64; 8750];
    let n = x.len() / 8;
    fill(x, &mut map);
    let op = checked_blocks::word(head, 0);
    let a = checked_blocks::word(head, 1);
    let b = checked_blocks::word(head, 2);
    let c = checked_blocks::word(head, 3);
    let d = checked_blocks::word(head, 4);
    replay_json::answer(to, op, a, b, c, d, base::front(&map, n), x, y)
}

// Makes the map of a sheet and a list, with so many work bytes.
fn make(sheet: &[u8], list: &[u8], direction: u32, lent: u32, map: &mut [u64]) -> Made
    requires { length map.old ≡ 6144 }
    ensures { result.number ≡ made_number sheet.now list.now direction lent }
{
    // Kept: (1) no heap: the memory is fixed.
    let mut work = [0; base::MOST_WORK];
    let n = work_lent(lent);
    segmap::make(sheet, list, direction, &mut work[..n], map)
}

// Prints a text through the map of a sheet and a list, with so many work bytes, or `refused` and the number of the map, which it answers.
pub fn through_made<W: Write>(
    to: &mut W,
    sheet: &[u8],
    list: &[u8],
    direction: u32,
    lent: u32,
    kind: u32,
    plan: u32,
    text: &[u8],
) -> io::Result<u32>
    ensures value { IfOk result (λ r. r ≡ made_number sheet.now list.now direction lent) }
    ensures grows { Grows (W.contents to.old) (W.contents to.new) }
{
    // Kept: (1) no heap: the memory is fixed.
    let mut map = [0u64; 6144];
    let made = make(sheet, list, direction, lent, &mut map);
    let number = made.number;
    if number != 0 {
        return files_map::print_number(to, b"refused ", number);
    }
    replay_sessions::answer(
        to,
        5,
        made.timescale,
        kind,
        0,
        plan,
        files_map::first_segments(&map, made.count),
        b"",
        b"",
        text,
    )?;
    Ok(0)
}
