// The player: a recording is run on a fresh collector, and what a person reads of it is written, a line for each event.
#![tactic(auto)]

pub mod play;
pub mod tables;
mod turns;
