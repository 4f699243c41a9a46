// Caption times of each kind: conversions between units (U to the second) and ticks (T to the second).
#![tactic(auto)]

mod convert;
mod kind;

pub use convert::{
    core_end, core_start, core_ticks, ticks_number, ticks_to_units_ceil, ticks_to_units_floor,
    timescale_bad, units_number, units_to_ticks,
};
pub use kind::{fraction_digits, hour_digits, kind_bad, mark_of, units_of};
