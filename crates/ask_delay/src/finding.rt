// The answer: refusals in their order, then the delay that loses least.
ghost use Rattle.std.specs.Prelude.{◌≡◌, false, ◌≤◌, length};
ghost use Rattle.refusals.specs.Numbers.{told};
ghost use Rattle.spec_time.specs.caption_time.Kind.{kind_bad};
ghost use Rattle.spec_time.specs.caption_time.Convert.{timescale_bad};
ghost use Rattle.spec_map.specs.segment.Segment.{segments_of, map_bad};
ghost use Rattle.spec_ask.specs.ask_delay.Loss.{any_late, tried_of, delay_number};
ghost use Rattle.ask_delay.specs.Choice.{chosen_of};
ghost use Rattle.spec_ask.specs.ask_delay.BestDelay.{delay_answer};

use crate::choosing::Chosen;
use crate::counting::count_all;
use crate::moving::delay_at;
use refusals::Refusal;
use spec_ask::ask_delay::Delay;
use spec_caption::caption_fate::Config;

const MOST_TRIES: u32 = 12001;

const MOST_CAPTIONS: usize = 4096;

// Whether a time passes the limit.
fn any_late(captions: &[u64]) -> bool
    ensures { result ≡ any_late captions.now }
{
    captions.iter().any(|t| base::MOST_UNITS < *t)
}

fn delay_number(
    map: &[u64],
    timescale: u32,
    kind: u32,
    captions: &[u64],
    budget: u32,
) -> Result<(), Refusal>
    ensures { told result ≡ delay_number map.now timescale kind captions.now budget }
{
    if caption_time::timescale_bad(timescale) {
        return Err(Refusal::BadMap);
    }
    if segment::map_bad(map) {
        return Err(Refusal::BadMap);
    }
    if budget < 1 {
        return Err(Refusal::TooManyCaptions);
    }
    if MOST_CAPTIONS < captions.len() / 2 {
        return Err(Refusal::TooManyCaptions);
    }
    if caption_time::kind_bad(kind) {
        return Err(Refusal::BadArgument);
    }
    if captions.len() % 2 != 0 {
        return Err(Refusal::BadArgument);
    }
    if any_late(captions) {
        return Err(Refusal::BadArgument);
    }
    Ok(())
}

#[tactic(auto, unfolding(spec_ask::specs::ask_delay::Loss::tried_of))]
fn tries_of(budget: u32) -> u32
    ensures { result ≡ tried_of budget }
{
    budget.min(MOST_TRIES)
}

// Every try counted, and the first of those that lose least.
fn try_all(map: &[u64], config: Config, captions: &[u64], tries: u32) -> Chosen
    requires { (timescale_bad config.timescale ≡ false) × (kind_bad config.kind ≡ false) × (map_bad map.now ≡ false) × (any_late captions.now ≡ false) × (length captions.now ≤ 8192) × (1 ≤ tries) × (tries ≤ 12001) }
    ensures { result ≡ chosen_of config (segments_of map.now) captions.now tries }
{
    // Kept: (1) no heap: the memory is fixed.
    let mut grades = [0u8; 12001];
    let mut losses = [0u32; 12001];
    count_all(map, config, captions, tries, &mut grades, &mut losses);
    crate::choosing::choose(&losses, tries)
}

// The delay in units that loses the fewest captions (start and end, in units of the kind), of the first `budget` in the order 0, 1, -1, 2, -2 to 6000,
// -6000.
pub fn best_delay(map: &[u64], timescale: u32, kind: u32, captions: &[u64], budget: u32) -> Delay
    ensures { result ≡ delay_answer map.now timescale kind captions.now budget }
{
    match delay_number(map, timescale, kind, captions, budget) {
        Err(r) => Delay {
            number: u32::from(r),
            delay: 0,
            loss: 0,
            tried: 0,
            off: 0,
        },
        Ok(()) => {
            let config = Config { kind, timescale };
            let best = try_all(map, config, captions, tries_of(budget));
            let floor = crate::saving::floor_of(map, config, captions);
            let loss = best.loss;
            Delay {
                number: 0,
                delay: delay_at(best.place),
                loss,
                tried: best.tried,
                off: loss - floor,
            }
        }
    }
}
