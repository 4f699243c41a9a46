// Texts retimed through a given map, with parkings or without, and sessions parked and taken up: what `replay` answers about them, printed.
#![tactic(auto)]

mod asking;
mod notes;
mod parked;
mod pieces;
mod printing;
mod retimed;
mod running;
mod storing;

pub use asking::answer;
