// A map read.
ghost use Rattle.std.specs.Prelude.{◌≡◌, ◌*◌, ◌≤◌, false, length, take, drop, MatchOption};
ghost use Rattle.refusals.specs.Numbers.{number_of, told};
ghost use Rattle.spec_base.specs.base.Limits.{most_segments};
ghost use Rattle.spec_json.specs.json.Space.{spaces};
ghost use Rattle.spec_json.specs.json.Member.{members_of};
ghost use Rattle.spec_map_json.specs.map_json_write.Names.{most_path};
ghost use Rattle.spec_map_json.specs.map_json_read.MapRead.{none_taken, Reads};
ghost use Rattle.spec_map_json.specs.map_json_write.Reads.{fields_said};
ghost use Rattle.map_json_read.specs.Walk.{span_in};
ghost use Rattle.map_json_read.specs.Steps.{object_of, all_said, Gathered, PartsOf, list_bad, Asked, Gives};

use crate::fields::{HeadSlots, Heads, heads_of, path_good};
use crate::walk::{Span, walk_text};
use map_json_segments::list::list_into;
use refusals::Refusal;
use spec_map_json::map_json_read::Taken;

fn refused(why: Refusal) -> Taken
    ensures { result ≡ none_taken (number_of why) }
{
    Taken {
        number: u32::from(why),
        timescale: 0,
        rate_num: 0,
        rate_den: 0,
        frames: 0,
        places: 0,
        path_len: 0,
    }
}

// What the object of a map says: the numbers that are no segment's, how many segments it has and how long its path is.
#[derive(Clone, Copy)]
pub struct Parts {
    pub heads: Heads,
    pub count: usize,
    pub path_len: usize,
}

// They, of a map's slots, its path's field and its list; the numbers of the segments go to `room`, and the path to `said`.
fn gather(
    x: HeadSlots,
    input: &[u8],
    list: &[u8],
    room: &mut [u64],
    said: &mut [u8],
) -> Option<Parts>
    requires { length room.old ≡ 6 * most_segments }
    ensures { MatchOption result (all_said x input.now list.now ≡ false) (λ p. Gathered x input.now list.now p room.old room.new said.old said.new) }
{
    let heads = heads_of(x)?;
    if !path_good(input) {
        return None;
    }
    let count = list_into(list, room)?;
    let path_len = json_strings::string_bytes(input, said);
    Some(Parts {
        heads,
        count,
        path_len,
    })
}

// What stands behind the first byte of a text that is no white space.
fn row_of(text: &[u8]) -> &[u8]
    ensures { result.now ≡ drop 1 (drop (spaces text.now) text.now) }
{
    base::rest(base::rest(text, json_values::spaces(text)), 1)
}

// What stands in `s` at `p`.
fn part<'a>(s: &'a [u8], p: Span) -> &'a [u8]
    ensures { result.now ≡ span_in s.now p }
{
    base::front(base::rest(s, p.at), p.len)
}

// They, of a text.
fn parts_of(text: &[u8], room: &mut [u64], said: &mut [u8]) -> Option<Parts>
    requires { (length room.old ≡ 6 * most_segments) × (length said.old ≡ most_path) }
    ensures { MatchOption result (fields_said (members_of 10 (object_of text.now)) ≡ false) (λ p. PartsOf (members_of 10 (object_of text.now)) p room.old room.new said.old said.new) }
{
    let s = row_of(text);
    let x = walk_text(text, s)?;
    gather(x.heads, part(s, x.path), part(s, x.list), room, said)
}

// Whether `count` segments whose numbers stand in `room` break a limit of maps.
fn list_bad(count: usize, room: &[u64]) -> bool
    ensures { result ≡ list_bad count room.now }
{
    1024 < count || segment::map_bad(base::front(room, 6 * count))
}

// The number of a text that is a map's: 15, then 16.
fn said_number(p: Parts, room: &[u64], places: usize, bytes: usize) -> Result<(), Refusal>
    ensures { Asked p places bytes room.now (told result) }
{
    let h = p.heads;
    if caption_time::timescale_bad(h.timescale) {
        return Err(Refusal::BadMap);
    }
    if list_bad(p.count, room) {
        return Err(Refusal::BadMap);
    }
    if places < 6144 {
        return Err(Refusal::BadArgument);
    }
    if bytes < 1024 {
        return Err(Refusal::BadArgument);
    }
    Ok(())
}

// What a map says, written: the numbers of its segments stand in `room`, and its path in `said`.
fn give(p: Parts, said: &[u8], room: &[u64], map: &mut [u64], path: &mut [u8]) -> Taken
    requires { (6 * p.count ≤ length room.now) × (length room.now ≤ length map.old) × (p.path_len ≤ length said.now) × (length said.now ≤ length path.old) }
    ensures { Gives p.heads (take p.path_len said.now) (take (6 * p.count) room.now) result map.old map.new path.old path.new }
{
    let h = p.heads;
    let places = 6 * p.count;
    map[..places].copy_from_slice(&room[..places]);
    path[..p.path_len].copy_from_slice(&said[..p.path_len]);
    Taken {
        number: 0,
        timescale: h.timescale,
        rate_num: h.rate_num,
        rate_den: h.rate_den,
        frames: h.frames,
        places,
        path_len: p.path_len,
    }
}

// Reads the JSON text of a map. Refused, it writes nothing: 23 for a text that is no map's, 15 for its timescale or a limit of maps, 16 where
// fewer than 6,144 numbers or 1,024 path bytes are lent.
pub fn read_map(text: &[u8], map: &mut [u64], path: &mut [u8]) -> Taken
    ensures { Reads text.now result map.old map.new path.old path.new }
{
    // Kept: (1) no heap: the memory is fixed.
    let mut room = [0u64; 6144];
    let mut said = [0u8; 1024];
    let Some(p) = parts_of(text, &mut room, &mut said) else {
        return refused(Refusal::NoMapText);
    };
    if let Err(why) = said_number(p, &room, map.len(), path.len()) {
        return refused(why);
    }
    give(p, &said, &room, map, path)
}
