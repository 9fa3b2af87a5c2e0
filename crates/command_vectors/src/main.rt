// Runs the papers' worked values through the command reader and the replies, and prints what they give.
// The file stdout was written from the papers, and the run is held to it.
#![tactic(auto)]

mod plans;
mod replies;

use std::io;

fn main(rt: HostRuntime) -> io::Result<()> {
    let mut out = rt.stdout();
    replies::run(&mut out)?;
    plans::run(&mut out)
}
