// What the bench prints of a recording: its text, written into a lent buffer.
#![tactic(auto)]

pub mod print;
