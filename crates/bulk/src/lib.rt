// The bulk pipes: a packet from the host, an ask for a packet, and a packet shown where it stands. Each makes its checks first,
// and is one equation with the specification machine, for every input.
#![tactic(auto)]

mod ask;
mod inward;
mod outward;
pub mod parts;
pub mod show;
