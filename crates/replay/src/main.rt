// Plays recordings, each a file that an argument names, and writes each one's name and what is printed of it. The first is
// played over one unit of 128 blocks, as document 01's bench sheet asks; those whose name begins with `units-` over four
// units of different sizes; all others as the bench plays them.
#![tactic(auto)]

ghost use Rattle.std.specs.Prelude.{◌≤◌};

use machine::record::LogicalUnit;
use player::play::{MEDIUM, ROOM, play, play_over};
use player::tables::part;
use std::env::FillError;
use std::fs::File;
use std::io::{Read, Write};
use std::rt::{Env, Files};
use std::{io, str};

// One byte more than a recording may have, so that a longer file is seen to be longer.
const MOST_READ: usize = 16385;

// What a recording is read into, and what is printed of it. They are lent to each recording in turn, so that the stack holds them
// once.
#[derive(Drop)]
struct Buffers {
    input: [u8; MOST_READ],
    text: [u8; ROOM],
}

// Puts a file's bytes at the start of input and returns how many. A file that cannot be opened counts as empty, and so does one
// whose name is not UTF-8; one of which a read fails ends there.
fn load(rt: &impl Files, name: &[u8], input: &mut [u8; MOST_READ]) -> usize
    ensures { result ≤ MOST_READ }
{
    let mut free = &mut input[..];
    if let Ok(path) = str::from_utf8(name) {
        if let Ok(file) = File::open(rt, path) {
            let _ = io::copy(&mut file.take(MOST_READ as u64), &mut free);
        }
    }
    let left = free.len();
    MOST_READ.saturating_sub(left)
}

// Writes a recording's name, and what is printed of it when it is played.
fn replay<P: FnOnce(&[u8], &mut [u8; ROOM]) -> usize>(
    rt: &impl Files,
    out: &mut impl Write,
    buffers: &mut Buffers,
    name: &[u8],
    play: P,
) -> io::Result<()>
    requires called { P.IsAlwaysCallable play }
    requires within { (s : _) (t : _) (end : _) (u : _) → P.post play s t end u → end ≤ ROOM }
{
    let got = load(rt, name, &mut buffers.input);
    let end = play(&buffers.input[..got], &mut buffers.text);
    out.write_all(name)?;
    writeln!(out)?;
    out.write_all(&buffers.text[..end])
}

fn over(
    rt: &impl Files,
    out: &mut impl Write,
    buffers: &mut Buffers,
    name: &[u8],
    units: &mut [LogicalUnit],
    medium: &mut [u8],
) -> io::Result<()> {
    replay(rt, out, buffers, name, |input, text| {
        play_over(input, units, medium, text)
    })
}

fn on_the_bench(
    rt: &impl Files,
    out: &mut impl Write,
    buffers: &mut Buffers,
    name: &[u8],
) -> io::Result<()> {
    replay(rt, out, buffers, name, |input, text| {
        play(input, &mut [0; MEDIUM], text)
    })
}

fn main(rt: HostRuntime) -> io::Result<()> {
    let mut out = rt.stdout();
    let buffers = &mut Buffers {
        input: [0; MOST_READ],
        text: [0; ROOM],
    };
    let mut argument = [0; 64];
    let first = rt.arg(1, &mut argument).unwrap_or(0);
    let sheet = &mut [part(0, 128)];
    over(
        &rt,
        &mut out,
        buffers,
        &argument[..first],
        sheet,
        &mut [0; 65536],
    )?;
    // By its number, since `arg` tells of one that is too long, which counts as empty.
    for i in 2.. {
        let length = match rt.arg(i, &mut argument) {
            Ok(length) => length,
            Err(FillError::TooLong) => 0,
            Err(FillError::NotPresent) => break,
        };
        let name = &argument[..length];
        if name.starts_with(b"units-") {
            let units = &mut [part(0, 64), part(64, 7), part(71, 1), part(72, 128)];
            over(&rt, &mut out, buffers, name, units, &mut [0; 102400])?;
        } else {
            on_the_bench(&rt, &mut out, buffers, name)?;
        }
    }
    Ok(())
}
