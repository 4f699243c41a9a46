// A map written.
ghost use Rattle.std.specs.Prelude.{◌≡◌};
ghost use Rattle.refusals.specs.Numbers.{number_of, told};
ghost use Rattle.spec_map_json.specs.map_json_write.MapWritten.{asked_number, Writes};

use crate::layout::map_at;
use caption_time::timescale_bad;
use refusals::Refusal;
use segment::map_bad;
use spec_map_json::map_json_write::Wrote;

// The first limit that is broken, but for the room: 15, 16 for the path, 20.
fn asked(map: &[u64], timescale: u32, path: &[u8]) -> Result<(), Refusal>
    ensures { told result ≡ asked_number map.now timescale path.now }
{
    if timescale_bad(timescale) {
        return Err(Refusal::BadMap);
    }
    if map_bad(map) {
        return Err(Refusal::BadMap);
    }
    if 1024 < path.len() {
        return Err(Refusal::BadArgument);
    }
    if !utf8::is_utf8(path) {
        return Err(Refusal::NotUtf8);
    }
    Ok(())
}

// The answer of a refusal: nothing is written.
fn refused(why: Refusal) -> Wrote
    ensures { result ≡ record { number = number_of why; written = 0 } }
{
    Wrote {
        number: u32::from(why),
        written: 0,
    }
}

// Writes a map as JSON to the start of `text`. Refused, it writes nothing: 15 for the timescale or the map, 16 for a path
// above 1,024 bytes, 20 for one that is not UTF-8, and 16 where the text is longer than what is lent.
pub fn write_map(
    map: &[u64],
    timescale: u32,
    rate_num: u32,
    rate_den: u32,
    path: &[u8],
    frames: u32,
    text: &mut [u8],
) -> Wrote
    ensures { Writes map.now timescale rate_num rate_den path.now frames result text.old text.new }
{
    if let Err(why) = asked(map, timescale, path) {
        return refused(why);
    }
    // Kept: (1) no heap: the memory is fixed.
    let mut none = [0u8; 1];
    let size = map_at(&mut none, map, timescale, rate_num, rate_den, path, frames);
    if text.len() < size {
        return refused(Refusal::BadArgument);
    }
    let written = map_at(text, map, timescale, rate_num, rate_den, path, frames);
    Wrote { number: 0, written }
}
