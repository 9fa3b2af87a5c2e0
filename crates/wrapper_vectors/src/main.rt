// Runs the papers' worked values through the wrapper codec and the thirteen cases, and prints what they give.
// The file stdout was written from the papers, and the run is held to it.
#![tactic(auto)]

mod answer;
mod cbw;
mod csw;
mod thirteen;

use std::io;

fn main(rt: HostRuntime) -> io::Result<()> {
    let mut out = rt.stdout();
    csw::run(&mut out)?;
    cbw::run(&mut out)?;
    thirteen::run(&mut out)
}
