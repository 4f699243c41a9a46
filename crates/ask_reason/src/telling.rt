// The fate of one caption and the reason.
ghost use Rattle.std.specs.Prelude.{◌≡◌, length};
ghost use Rattle.refusals.specs.Numbers.{told};
ghost use Rattle.spec_ask.specs.ask_reason.Reason.{counted_cut, why_number, why_of, causes_left};

use caption_fate::Counted;
use refusals::Refusal;
use spec_ask::ask_reason::Why;

fn why_number(
    map: &[u64],
    timescale: u32,
    kind: u32,
    start: u64,
    stop: u64,
    places: usize,
) -> Result<(), Refusal>
    ensures { told result ≡ why_number map.now timescale kind start stop places }
{
    if caption_time::timescale_bad(timescale) {
        return Err(Refusal::BadMap);
    }
    if segment::map_bad(map) {
        return Err(Refusal::BadMap);
    }
    if caption_time::kind_bad(kind) {
        return Err(Refusal::BadArgument);
    }
    if base::MOST_UNITS < start {
        return Err(Refusal::BadArgument);
    }
    if base::MOST_UNITS < stop {
        return Err(Refusal::BadArgument);
    }
    if places < map.len() / 6 {
        return Err(Refusal::BadArgument);
    }
    Ok(())
}

// Shifted where nothing was cut off.
#[tactic(auto, unfolding(spec_ask::specs::ask_reason::Reason::counted_cut))]
fn counted(start_cut: u64, end_cut: u64) -> Counted
    ensures { result ≡ counted_cut start_cut end_cut }
{
    if start_cut != 0 || end_cut != 0 {
        Counted::Clipped
    } else {
        Counted::Shifted
    }
}

// What becomes of a caption read as `start` to `stop` in units, and why. Of a dropped one, the causes of all segments stand in `causes`, in list order.
pub fn reason(
    map: &[u64],
    timescale: u32,
    kind: u32,
    start: u64,
    stop: u64,
    causes: &mut [u64],
) -> Why
    ensures { (result ≡ why_of map.now timescale kind start stop (length causes.old)) × (causes.new ≡ causes_left map.now timescale kind start stop causes.old) }
{
    match why_number(map, timescale, kind, start, stop, causes.len()) {
        Err(r) => Why {
            number: u32::from(r),
            fate: Counted::Nothing,
            place: 0,
            start_cut: 0,
            end_cut: 0,
        },
        Ok(()) => {
            let a = caption_time::core_ticks(start, timescale, kind);
            let b = caption_time::core_ticks(stop, timescale, kind);
            match caption_fate::find_hit(map, a, b) {
                None => {
                    crate::causes::fill(map, a, b, causes);
                    Why {
                        number: 0,
                        fate: Counted::Dropped,
                        place: 0,
                        start_cut: 0,
                        end_cut: 0,
                    }
                }
                Some(x) => {
                    let start_cut = x.source.saturating_sub(a);
                    let end_cut = b.saturating_sub(x.source + x.duration);
                    Why {
                        number: 0,
                        fate: counted(start_cut, end_cut),
                        place: x.place,
                        start_cut,
                        end_cut,
                    }
                }
            }
        }
    }
}
