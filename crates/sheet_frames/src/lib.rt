// The frames of a sheet, read place by place. No exported function has a `requires`.
#![tactic(auto)]

mod access;

pub use access::{
    decode_at, decode_by, decode_in, duration_at, duration_by, frames, long, rate_den, rate_num,
    sync_at, timescale,
};
