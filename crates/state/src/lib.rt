// What a record may be and what it becomes: when a record fits (number 10), the checks before an event, and the states
// that events leave. Each function is one equation with the specification machine.
#![tactic(auto)]

pub mod fits;
pub mod gate;
pub mod progress;
pub mod states;
