// The lent table of logical units: whether it fits, what one unit is, and what an event changes in it.
#![tactic(auto)]

pub mod change;
pub mod table;
pub mod unit;
