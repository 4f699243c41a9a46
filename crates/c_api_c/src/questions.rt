// Questions about a map, for callers from C: why a caption is kept or dropped (request 2.8), times known only roughly (2.11), how many starts survive a cut (2.13),
// and the delay that loses least (2.14).
ghost use Rattle.std.specs.Prelude.{◌≡◌, cond, eqb, length};
ghost use Rattle.spec_base.specs.base.Refusal.{left_in};
ghost use Rattle.spec_ask.specs.ask_reason.Reason.{why_of, causes_left, fate_code};
ghost use Rattle.spec_ask.specs.ask_rough.Rough.{rough_of, number_of, told_of};
ghost use Rattle.spec_ask.specs.ask_census.Census.{census_of};
ghost use Rattle.spec_ask.specs.ask_delay.BestDelay.{delay_answer};

// 0, 15 or 16. With 0 the four places tell the fate (0 dropped, 1 shifted, 2 clipped), the place of the segment that is met, from 0, and the ticks cut off at each
// end; of a dropped caption the causes stand at the start of `causes`. Else all stay as they were.
#[unsafe(no_mangle)]
pub extern "C" fn retimer_why(
    map: &[u64],
    timescale: u32,
    kind: u32,
    start: u64,
    stop: u64,
    causes: &mut [u64],
    fate: &mut u64,
    place: &mut u64,
    start_cut: &mut u64,
    end_cut: &mut u64,
) -> u32
    ensures value { result ≡ (why_of map.now timescale kind start stop (length causes.old)).number }
    ensures causes_after { causes.new ≡ causes_left map.now timescale kind start stop causes.old }
    ensures fate_after { fate.new ≡ left_in result (fate_code (why_of map.now timescale kind start stop (length causes.old)).fate) fate.old }
    ensures place_after { place.new ≡ left_in result (why_of map.now timescale kind start stop (length causes.old)).place place.old }
    ensures start_cut_after { start_cut.new ≡ left_in result (why_of map.now timescale kind start stop (length causes.old)).start_cut start_cut.old }
    ensures end_cut_after { end_cut.new ≡ left_in result (why_of map.now timescale kind start stop (length causes.old)).end_cut end_cut.old }
{
    c_api::retimer_why(
        map, timescale, kind, start, stop, causes, fate, place, start_cut, end_cut,
    )
}

// 0, 15 or 16. With 0 the judgement is 0 surely dropped, 1 surely kept, 2 unsure; else it stays as it was.
#[unsafe(no_mangle)]
pub extern "C" fn retimer_rough(
    map: &[u64],
    start_low: u64,
    start_high: u64,
    end_low: u64,
    end_high: u64,
    judgement: &mut u64,
) -> u32
    ensures value { result ≡ number_of (rough_of map.now start_low start_high end_low end_high) }
    ensures judgement_after { judgement.new ≡ told_of (rough_of map.now start_low start_high end_low end_high) judgement.old }
{
    c_api::retimer_rough(map, start_low, start_high, end_low, end_high, judgement)
}

// The number of a count of starts: 0, 15, 16 or 28; the three counts go to the lent places, which stay as they were where it is refused.
#[unsafe(no_mangle)]
pub extern "C" fn retimer_census(
    map: &[u64],
    timescale: u32,
    kind: u32,
    length: u64,
    count: u64,
    shifted: &mut u64,
    clipped: &mut u64,
    dropped: &mut u64,
) -> u32
    ensures value { result ≡ (census_of map.now timescale kind length count).number }
    ensures shifted_after { shifted.new ≡ left_in result (census_of map.now timescale kind length count).shifted shifted.old }
    ensures clipped_after { clipped.new ≡ left_in result (census_of map.now timescale kind length count).clipped clipped.old }
    ensures dropped_after { dropped.new ≡ left_in result (census_of map.now timescale kind length count).dropped dropped.old }
{
    c_api::retimer_census(
        map, timescale, kind, length, count, shifted, clipped, dropped,
    )
}

// The number of a search for the best delay: 0, 15, 16 or 29; the delay, its loss, the tries and how far off it can be go to the lent places, which stay as they were where it is refused.
#[unsafe(no_mangle)]
pub extern "C" fn retimer_best_delay(
    map: &[u64],
    timescale: u32,
    kind: u32,
    captions: &[u64],
    budget: u32,
    delay: &mut i64,
    loss: &mut u32,
    tried: &mut u32,
    off: &mut u32,
) -> u32
    ensures value { result ≡ (delay_answer map.now timescale kind captions.now budget).number }
    ensures delay_after { delay.new ≡ cond (eqb result 0) (delay_answer map.now timescale kind captions.now budget).delay delay.old }
    ensures loss_after { loss.new ≡ left_in result (delay_answer map.now timescale kind captions.now budget).loss loss.old }
    ensures tried_after { tried.new ≡ left_in result (delay_answer map.now timescale kind captions.now budget).tried tried.old }
    ensures off_after { off.new ≡ left_in result (delay_answer map.now timescale kind captions.now budget).off off.old }
{
    c_api::retimer_best_delay(
        map, timescale, kind, captions, budget, delay, loss, tried, off,
    )
}
