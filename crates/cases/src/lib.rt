// The thirteen cases (BOT 6.7): what the host announces and what the device has decide what follows. Nothing here knows of SCSI
// or of wrappers.
#![tactic(auto)]

ghost use Rattle.std.specs.Prelude.{◌≡◌};
ghost use Rattle.cases.specs.Cases.{counted, plain, phase_error, same_way, case_of};

use std::cmp::Ordering;

// Data in one direction, with its number of bytes.
#[derive(Clone, Copy, Debug, PartialEq, Eq)]
pub enum Transfer {
    None,
    In(u32),
    Out(u32),
}

#[derive(Clone, Copy, Debug, PartialEq, Eq)]
pub enum Pipe {
    In,
    Out,
}

// Which pipe is halted, and when: where data moves the halt waits for its end.
#[derive(Clone, Copy, Debug, PartialEq, Eq)]
pub enum Halt {
    None,
    AtOnce(Pipe),
    AfterData(Pipe),
}

// The status that the wrapper then gives: what the command itself gives (passed or failed), or a phase error.
#[derive(Clone, Copy, Debug, PartialEq, Eq)]
pub enum Ending {
    Command,
    PhaseError,
}

#[derive(Clone, Copy, Debug, PartialEq, Eq)]
pub struct Case {
    pub moves: Transfer,
    pub halt: Halt,
    pub ending: Ending,
}

// 0 bytes count as none.
fn count_of(transfer: Transfer) -> Transfer
    ensures { result ≡ counted transfer }
{
    match transfer {
        Transfer::In(0) | Transfer::Out(0) => Transfer::None,
        _ => transfer,
    }
}

fn phase_error(halt: Halt) -> Case
    ensures { result ≡ phase_error halt }
{
    Case {
        moves: Transfer::None,
        halt,
        ending: Ending::PhaseError,
    }
}

fn plain(moves: Transfer, halt: Halt) -> Case
    ensures { result ≡ plain moves halt }
{
    Case {
        moves,
        halt,
        ending: Ending::Command,
    }
}

// Both sides agree on the pipe; the device has `has` of the bytes announced.
fn same_way(pipe: Pipe, announced: u32, has: u32, moves: Transfer) -> Case
    ensures { result ≡ same_way pipe announced has moves }
{
    match has.cmp(&announced) {
        Ordering::Less => plain(moves, Halt::AfterData(pipe)),
        Ordering::Equal => plain(moves, Halt::None),
        Ordering::Greater => phase_error(Halt::AtOnce(pipe)),
    }
}

#[tactic(auto, unfolding(crate::specs::Cases::case_of, crate::specs::Cases::meeting))]
pub fn case_of(host: Transfer, device: Transfer) -> Case
    ensures { result ≡ case_of host device }
{
    match (count_of(host), count_of(device)) {
        (Transfer::None, Transfer::None) => plain(Transfer::None, Halt::None),
        (Transfer::None, _) => phase_error(Halt::None),
        (Transfer::In(_), Transfer::None) => plain(Transfer::None, Halt::AtOnce(Pipe::In)),
        (Transfer::In(n), Transfer::In(d)) => same_way(Pipe::In, n, d, Transfer::In(d)),
        (Transfer::In(_), Transfer::Out(_)) => phase_error(Halt::AtOnce(Pipe::In)),
        (Transfer::Out(_), Transfer::None) => plain(Transfer::None, Halt::AtOnce(Pipe::Out)),
        (Transfer::Out(_), Transfer::In(_)) => phase_error(Halt::AtOnce(Pipe::Out)),
        (Transfer::Out(n), Transfer::Out(d)) => same_way(Pipe::Out, n, d, Transfer::Out(d)),
    }
}
