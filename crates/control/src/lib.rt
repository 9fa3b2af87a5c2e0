// Bus reset and control requests. Both events make their checks first; each is one equation with the specification
// machine, for every input.
#![tactic(auto)]

mod data;
mod halts;
pub mod parts;
mod requests;
