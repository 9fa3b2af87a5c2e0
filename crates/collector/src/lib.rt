// What is done at the collector itself: making it over a lent table and medium, and setting a write switch. Each is one
// equation with the specification machine (crate `machine`). The four events of the bus are in `control` and `bulk`.
#![tactic(auto)]

pub mod making;
pub mod switch;
