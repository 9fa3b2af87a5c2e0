// How a command begins: a packet where a wrapper is due is read, with the plan of its command, and an accepted one leaves a
// state. Each public function is one equation with the specification machine, for every input.
#![tactic(auto)]

pub mod command;
pub mod wrapper;
