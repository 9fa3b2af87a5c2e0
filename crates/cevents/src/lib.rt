// Making, the five events and the showing call on the record as C holds it: what the exported functions of `capi` do.
// Each is one equation with the specification machine, for every input.
#![tactic(auto)]

mod packets;
mod place;
mod quick;
pub mod show;
mod showing;
pub mod turn;
