// Conversions between units and ticks: lone ones with their refusals, and those of captions.
ghost use Rattle.std.specs.Prelude.{◌≡◌, ◌*◌, ◌/◌, ◌^◌, ◌≤◌, ◌<◌};
ghost use Rattle.refusals.specs.Numbers.{told};
ghost use Rattle.spec_time.specs.caption_time.Kind.{units_of};
ghost use Rattle.spec_time.specs.caption_time.Convert.{scaled_up, ticks_of, start_units, end_units, timescale_bad, setting_number, units_number, ticks_number, converted_to, core_holds, ticks_within, start_within, end_within};
ghost use Rattle.caption_time.specs.Answer.{converted_of};

use crate::kind::{kind_bad, units_of};
use refusals::Refusal;

// The limits of captions' conversions; specs/Convert has the same as definitions.
const CORE_TIMESCALE: u32 = 1000000000;

const CORE_UNITS: u64 = 137438953472;

const CORE_TICKS: u64 = base::MOST_TICKS + 1;

// Whether T, the ticks a second, is out of range.
#[tactic(auto, unfolding(spec_time::specs::caption_time::Convert::timescale_bad))]
pub fn timescale_bad(timescale: u32) -> bool
    ensures { result ≡ timescale_bad timescale }
{
    !(1..=base::MOST_TIMESCALE).contains(&timescale)
}

// The first refusal of T and the kind.
fn setting_number(timescale: u32, kind: u32) -> Result<(), Refusal>
    ensures { told result ≡ setting_number kind timescale }
{
    if timescale_bad(timescale) {
        return Err(Refusal::BadMap);
    }
    if kind_bad(kind) {
        return Err(Refusal::BadArgument);
    }
    Ok(())
}

// Why a conversion of units is refused.
pub fn units_number(value: u64, timescale: u32, kind: u32) -> Result<(), Refusal>
    ensures { told result ≡ units_number kind timescale value }
{
    setting_number(timescale, kind)?;
    if base::MOST_UNITS < value {
        return Err(Refusal::BadArgument);
    }
    Ok(())
}

// Why a conversion of ticks is refused.
pub fn ticks_number(value: u64, timescale: u32, kind: u32) -> Result<(), Refusal>
    ensures { told result ≡ ticks_number kind timescale value }
{
    setting_number(timescale, kind)?;
    if base::MOST_TICKS < value {
        return Err(Refusal::BadArgument);
    }
    Ok(())
}

// x × by / over, rounded down, with no product above over × by.
fn scale_down(x: u64, by: u64, over: u64) -> u64
    requires { (1 ≤ over) × ((by ≤ 2 ^ 30) × ((over ≤ 2 ^ 30) × (x * by / over < 2 ^ 63))) }
    ensures { result ≡ x * by / over }
{
    x / over * by + x % over * by / over
}

// x × by / over, rounded up.
fn scale_up(x: u64, by: u64, over: u64) -> u64
    requires { (1 ≤ over) × ((by ≤ 2 ^ 30) × ((over ≤ 2 ^ 30) × (x * by / over < 2 ^ 63))) }
    ensures { result ≡ scaled_up x by over }
{
    x / over * by + (x % over * by + (over - 1)) / over
}

// Whether kind, timescale and value are within the limits of captions' conversions.
#[tactic(auto, unfolding(spec_time::specs::caption_time::Convert::core_holds))]
fn core_holds(value: u64, most: u64, timescale: u32, kind: u32) -> bool
    ensures { result ≡ core_holds kind timescale value most }
{
    !kind_bad(kind) && (1..=CORE_TIMESCALE).contains(&timescale) && value <= most
}

// Ticks of a time that was read, rounded down.
pub fn core_ticks(units: u64, timescale: u32, kind: u32) -> u64
    ensures { result ≡ ticks_within kind timescale units }
{
    if core_holds(units, CORE_UNITS, timescale, kind) {
        scale_down(units, u64::from(timescale), u64::from(units_of(kind)))
    } else {
        0
    }
}

// The start that is written for ticks, rounded down.
// Kept: (4) this and `core_end` are one call each: one function that is told the rounding would be no plainer.
pub fn core_start(ticks: u64, timescale: u32, kind: u32) -> u64
    ensures { result ≡ start_within kind timescale ticks }
{
    if core_holds(ticks, CORE_TICKS, timescale, kind) {
        scale_down(ticks, u64::from(units_of(kind)), u64::from(timescale))
    } else {
        0
    }
}

// The end that is written for ticks, rounded up.
// Kept: (4) as `core_start`.
pub fn core_end(ticks: u64, timescale: u32, kind: u32) -> u64
    ensures { result ≡ end_within kind timescale ticks }
{
    if core_holds(ticks, CORE_TICKS, timescale, kind) {
        scale_up(ticks, u64::from(units_of(kind)), u64::from(timescale))
    } else {
        0
    }
}

// A lone conversion of units to ticks, rounded down.
pub fn units_to_ticks(value: u64, timescale: u32, kind: u32) -> Result<u64, Refusal>
    ensures { converted_of result ≡ converted_to (units_number kind timescale value) (ticks_of timescale (units_of kind) value) }
{
    units_number(value, timescale, kind)?;
    Ok(core_ticks(value, timescale, kind))
}

// A lone conversion of ticks to units, rounded down as a start is.
pub fn ticks_to_units_floor(value: u64, timescale: u32, kind: u32) -> Result<u64, Refusal>
    ensures { converted_of result ≡ converted_to (ticks_number kind timescale value) (start_units timescale (units_of kind) value) }
{
    ticks_number(value, timescale, kind)?;
    Ok(core_start(value, timescale, kind))
}

// A lone conversion of ticks to units, rounded up as an end is.
pub fn ticks_to_units_ceil(value: u64, timescale: u32, kind: u32) -> Result<u64, Refusal>
    ensures { converted_of result ≡ converted_to (ticks_number kind timescale value) (end_units timescale (units_of kind) value) }
{
    ticks_number(value, timescale, kind)?;
    Ok(core_end(value, timescale, kind))
}
