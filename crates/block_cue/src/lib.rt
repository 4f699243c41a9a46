// Blocks of lines (SRT, WebVTT): what becomes of one closed block.
#![tactic(auto)]

mod numbering;
mod srt;

pub use srt::block;
