// Runs the papers' worked values through the setup decoder and the descriptors, and prints what they give.
// The file stdout was written from the papers, and the run is held to it.
#![tactic(auto)]

mod descriptors;
mod requests;

use std::io;

fn main(rt: HostRuntime) -> io::Result<()> {
    let mut out = rt.stdout();
    descriptors::run(&mut out)?;
    requests::run(&mut out)
}
