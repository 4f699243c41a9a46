// The exports of the static library: each calls the function of its name in the crate c_api, with the same clauses. include/retimer.h declares them.
#![tactic(auto)]

mod captions;
mod maps;
mod questions;

ghost use Rattle.std.specs.Prelude.{◌≡◌, length};
ghost use Rattle.spec_sheet.specs.sheet.Sheet.{sheet_of, work_after, number_of};
ghost use Rattle.spec_trim.specs.trim.TrimList.{list_number};
ghost use Rattle.spec_time.specs.caption_time.Kind.{units_of};
ghost use Rattle.spec_time.specs.caption_time.Convert.{ticks_of, start_units, end_units, units_number, ticks_number, converted_to};

// The frame sheet's number: 0, 11 to 14, 16, 25 or 26. The work bytes are n / 8, rounded up, or more; 131,072 are always enough. Those needed end zero.
#[unsafe(no_mangle)]
pub extern "C" fn retimer_sheet_check(sheet: &[u8], work: &mut [u8]) -> u32
    ensures value { result ≡ number_of (sheet_of sheet.now (length work.old)) }
    ensures work_after { work.new ≡ work_after sheet.now work.old }
{
    c_api::retimer_sheet_check(sheet, work)
}

// The trim list's number: 0, 2 to 7, or 20.
#[unsafe(no_mangle)]
pub extern "C" fn retimer_list_check(list: &[u8]) -> u32
    ensures { result ≡ list_number list.now }
{
    c_api::retimer_list_check(list)
}

// Units to ticks, down; 0 when refused.
#[unsafe(no_mangle)]
pub extern "C" fn retimer_units_to_ticks(value: u64, timescale: u32, kind: u32) -> u64
    ensures { result ≡ (converted_to (units_number kind timescale value) (ticks_of timescale (units_of kind) value)).value }
{
    c_api::retimer_units_to_ticks(value, timescale, kind)
}

// Ticks to units, down; 0 when refused.
#[unsafe(no_mangle)]
pub extern "C" fn retimer_ticks_to_units_floor(value: u64, timescale: u32, kind: u32) -> u64
    ensures { result ≡ (converted_to (ticks_number kind timescale value) (start_units timescale (units_of kind) value)).value }
{
    c_api::retimer_ticks_to_units_floor(value, timescale, kind)
}

// Ticks to units, up; 0 when refused.
#[unsafe(no_mangle)]
pub extern "C" fn retimer_ticks_to_units_ceil(value: u64, timescale: u32, kind: u32) -> u64
    ensures { result ≡ (converted_to (ticks_number kind timescale value) (end_units timescale (units_of kind) value)).value }
{
    c_api::retimer_ticks_to_units_ceil(value, timescale, kind)
}

// The number of a conversion from units: 0, 15 or 16.
#[unsafe(no_mangle)]
pub extern "C" fn retimer_units_number(value: u64, timescale: u32, kind: u32) -> u32
    ensures { result ≡ units_number kind timescale value }
{
    c_api::retimer_units_number(value, timescale, kind)
}

// The number of a conversion from ticks: 0, 15 or 16.
#[unsafe(no_mangle)]
pub extern "C" fn retimer_ticks_number(value: u64, timescale: u32, kind: u32) -> u32
    ensures { result ≡ ticks_number kind timescale value }
{
    c_api::retimer_ticks_number(value, timescale, kind)
}
