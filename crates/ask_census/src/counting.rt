// The answer: refusals in their order, then the three counts.
ghost use Rattle.std.specs.Prelude.{◌≡◌};
ghost use Rattle.refusals.specs.Numbers.{told};
ghost use Rattle.spec_ask.specs.ask_census.Census.{census_number, census_of};

use refusals::Refusal;
use spec_ask::ask_census::StartCounts;

// The largest count of starts, and the largest length.
const MOST_STARTS: u64 = 36000000;

fn census_number(
    map: &[u64],
    timescale: u32,
    kind: u32,
    length: u64,
    count: u64,
) -> Result<(), Refusal>
    ensures { told result ≡ census_number map.now timescale kind length count }
{
    if caption_time::timescale_bad(timescale) {
        return Err(Refusal::BadMap);
    }
    if segment::map_bad(map) {
        return Err(Refusal::BadMap);
    }
    if ask_order::ascends(map) {
        if caption_time::kind_bad(kind) {
            return Err(Refusal::BadArgument);
        }
        if MOST_STARTS < length {
            return Err(Refusal::BadArgument);
        }
        if MOST_STARTS < count {
            return Err(Refusal::BadArgument);
        }
        return Ok(());
    }
    Err(Refusal::NotAscending)
}

// How captions `length` units long fare at the starts 0 to `count` - 1, in units of the kind.
pub fn census(map: &[u64], timescale: u32, kind: u32, length: u64, count: u64) -> StartCounts
    ensures { result ≡ census_of map.now timescale kind length count }
{
    match census_number(map, timescale, kind, length, count) {
        Err(r) => StartCounts {
            number: u32::from(r),
            shifted: 0,
            clipped: 0,
            dropped: 0,
        },
        Ok(()) => {
            let t = crate::tally::count_starts(map, timescale, kind, length, count);
            let kept = t.kept;
            let whole = t.whole;
            StartCounts {
                number: 0,
                shifted: whole,
                clipped: kept - whole,
                dropped: count - kept,
            }
        }
    }
}
