// The bench: reads a recording from standard input, plays it, writes what is printed to standard output.
#![tactic(auto)]

ghost use Rattle.std.specs.Prelude.{◌≤◌, IfOk};

use player::play::{MEDIUM, ROOM, play};
use std::io;
use std::io::{Read, Write};

// One byte more than a recording may have, so that a longer input is seen to be longer.
const MOST_READ: usize = 16385;

// Puts the input's bytes at the start of an array and returns how many. Neither it nor `play_to` is inlined, so that the stack
// does not hold what copying takes beside the arrays of playing.
#[inline(never)]
fn load(from: &mut impl Read, input: &mut [u8; MOST_READ]) -> io::Result<usize>
    ensures { IfOk result (λ n. n ≤ MOST_READ) }
{
    let mut free = &mut input[..];
    io::copy(&mut from.take(MOST_READ as u64), &mut free)?;
    let left = free.len();
    Ok(MOST_READ.saturating_sub(left))
}

// Plays a recording and writes what is printed of it.
#[inline(never)]
fn play_to(out: &mut impl Write, recording: &[u8]) -> io::Result<()> {
    let mut medium = [0; MEDIUM];
    let mut text = [0; ROOM];
    let end = play(recording, &mut medium, &mut text);
    out.write_all(&text[..end])
}

fn main(rt: HostRuntime) -> io::Result<()> {
    let mut input = [0; MOST_READ];
    let got = load(&mut rt.stdin(), &mut input)?;
    play_to(&mut rt.stdout(), &input[..got])
}
