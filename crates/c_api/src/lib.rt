// The C functions for the Rust cutter: thin wrappers with the contracts of what they call. include/retimer.h declares them.
#![tactic(auto)]

mod captions;
mod maps;
mod questions;

ghost use Rattle.std.specs.Prelude.{◌≡◌, length};
ghost use Rattle.spec_sheet.specs.sheet.Sheet.{sheet_of, work_after, number_of};
ghost use Rattle.spec_trim.specs.trim.TrimList.{list_number};
ghost use Rattle.spec_time.specs.caption_time.Kind.{units_of};
ghost use Rattle.spec_time.specs.caption_time.Convert.{ticks_of, start_units, end_units, units_number, ticks_number, converted_to};

pub use captions::{retimer_cues, retimer_feed, retimer_finish, retimer_open, retimer_text};
pub use maps::{retimer_map, retimer_map_read, retimer_map_write};
pub use questions::{retimer_best_delay, retimer_census, retimer_rough, retimer_why};

// The frame sheet's number: 0, 11 to 14, 16, 25 or 26. The work bytes are n / 8, rounded up, or more; 131,072 are always enough. Those needed end zero.
pub fn retimer_sheet_check(sheet: &[u8], work: &mut [u8]) -> u32
    ensures value { result ≡ number_of (sheet_of sheet.now (length work.old)) }
    ensures work_after { work.new ≡ work_after sheet.now work.old }
{
    refusals::number(sheet::check(sheet, work))
}

// The trim list's number: 0, 2 to 7, or 20.
pub fn retimer_list_check(list: &[u8]) -> u32
    ensures { result ≡ list_number list.now }
{
    refusals::number(trim::check(list))
}

// Units to ticks, down; 0 when refused.
pub fn retimer_units_to_ticks(value: u64, timescale: u32, kind: u32) -> u64
    ensures { result ≡ (converted_to (units_number kind timescale value) (ticks_of timescale (units_of kind) value)).value }
{
    caption_time::units_to_ticks(value, timescale, kind).unwrap_or(0)
}

// Ticks to units, down; 0 when refused.
pub fn retimer_ticks_to_units_floor(value: u64, timescale: u32, kind: u32) -> u64
    ensures { result ≡ (converted_to (ticks_number kind timescale value) (start_units timescale (units_of kind) value)).value }
{
    caption_time::ticks_to_units_floor(value, timescale, kind).unwrap_or(0)
}

// Ticks to units, up; 0 when refused.
pub fn retimer_ticks_to_units_ceil(value: u64, timescale: u32, kind: u32) -> u64
    ensures { result ≡ (converted_to (ticks_number kind timescale value) (end_units timescale (units_of kind) value)).value }
{
    caption_time::ticks_to_units_ceil(value, timescale, kind).unwrap_or(0)
}

// The number of a conversion from units: 0, 15 or 16.
pub fn retimer_units_number(value: u64, timescale: u32, kind: u32) -> u32
    ensures { result ≡ units_number kind timescale value }
{
    refusals::number(caption_time::units_number(value, timescale, kind))
}

// The number of a conversion from ticks: 0, 15 or 16.
pub fn retimer_ticks_number(value: u64, timescale: u32, kind: u32) -> u32
    ensures { result ≡ ticks_number kind timescale value }
{
    refusals::number(caption_time::ticks_number(value, timescale, kind))
}
