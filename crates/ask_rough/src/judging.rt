// A caption whose start and end are known only between two ticks each.
ghost use Rattle.std.specs.Prelude.{◌≡◌};
ghost use Rattle.refusals.specs.Numbers.{told};
ghost use Rattle.spec_map.specs.segment.Segment.{segments_of};
ghost use Rattle.spec_ask.specs.ask_rough.Rough.{kept_at, rough_number, rough_of, number_of, told_of};

use refusals::Refusal;
use spec_ask::ask_rough::Judged;

fn rough_number(
    map: &[u64],
    start_low: u64,
    start_high: u64,
    end_low: u64,
    end_high: u64,
) -> Result<(), Refusal>
    ensures { told result ≡ rough_number map.now start_low start_high end_low end_high }
{
    if segment::map_bad(map) {
        return Err(Refusal::BadMap);
    }
    if start_high < start_low {
        return Err(Refusal::BadArgument);
    }
    if end_high < end_low {
        return Err(Refusal::BadArgument);
    }
    Ok(())
}

// Whether a caption of ticks a to b is kept.
fn kept_at(map: &[u64], a: u64, b: u64) -> bool
    ensures { result ≡ kept_at (segments_of map.now) a b }
{
    caption_fate::find_hit(map, a, b).is_some()
}

// What is sure of a caption that starts between two ticks and ends between two ticks, any of 64 bits.
pub fn rough(map: &[u64], start_low: u64, start_high: u64, end_low: u64, end_high: u64) -> Judged
    ensures { result ≡ rough_of map.now start_low start_high end_low end_high }
{
    match rough_number(map, start_low, start_high, end_low, end_high) {
        Err(r) => Judged::Refused(u32::from(r)),
        Ok(()) => {
            if kept_at(map, start_high, end_low) {
                Judged::SurelyKept
            } else if kept_at(map, start_low, end_high) {
                Judged::Unsure
            } else {
                Judged::SurelyDropped
            }
        }
    }
}

// An answer's number.
pub fn number(j: Judged) -> u32
    ensures { result ≡ number_of j }
{
    match j {
        Judged::Refused(k) => k,
        Judged::SurelyKept | Judged::SurelyDropped | Judged::Unsure => 0,
    }
}

// What an answer leaves in a place where `before` stood: 0 surely dropped, 1 surely kept, 2 unsure; a refusal leaves the place as it was.
pub fn told(j: Judged, before: u64) -> u64
    ensures { result ≡ told_of j before }
{
    match j {
        Judged::Refused(_) => before,
        Judged::SurelyKept => 1,
        Judged::SurelyDropped => 0,
        Judged::Unsure => 2,
    }
}
