// The thirteen cases, in the order and with the names of BOT 6.7.
// The words for what an enum of another crate names are functions: a Display would need a type of its own for each.
use cases::{Ending, Halt, Pipe, Transfer, case_of};
use hexprint::Hex;
use std::io;
use std::io::Write;

fn moves(out: &mut impl Write, transfer: Transfer) -> io::Result<()> {
    match transfer {
        Transfer::None => write!(out, " no data,"),
        Transfer::In(n) => write!(out, " in{},", Hex(&n.to_be_bytes())),
        Transfer::Out(n) => write!(out, " out{},", Hex(&n.to_be_bytes())),
    }
}

fn pipe(p: Pipe) -> &'static str {
    match p {
        Pipe::In => " bulk-in halted",
        Pipe::Out => " bulk-out halted",
    }
}

fn halts(out: &mut impl Write, halt: Halt) -> io::Result<()> {
    match halt {
        Halt::None => write!(out, " no halt,"),
        Halt::AtOnce(p) => write!(out, "{} at once,", pipe(p)),
        Halt::AfterData(p) => write!(out, "{} after the data,", pipe(p)),
    }
}

fn ends(ending: Ending) -> &'static str {
    match ending {
        Ending::Command => " the command's status",
        Ending::PhaseError => " phase error",
    }
}

fn case(out: &mut impl Write, name: &str, host: Transfer, device: Transfer) -> io::Result<()> {
    let follows = case_of(host, device);
    write!(out, "{name}")?;
    moves(out, follows.moves)?;
    halts(out, follows.halt)?;
    writeln!(out, "{}", ends(follows.ending))
}

fn nothing(out: &mut impl Write) -> io::Result<()> {
    case(out, "case 1, Hn = Dn:", Transfer::None, Transfer::None)?;
    case(out, "case 2, Hn < Di:", Transfer::None, Transfer::In(8))?;
    case(out, "case 3, Hn < Do:", Transfer::None, Transfer::Out(512))
}

fn inward(out: &mut impl Write) -> io::Result<()> {
    case(out, "case 4, Hi > Dn:", Transfer::In(64), Transfer::None)?;
    case(out, "case 5, Hi > Di:", Transfer::In(64), Transfer::In(36))?;
    case(out, "case 6, Hi = Di:", Transfer::In(64), Transfer::In(64))?;
    case(out, "case 7, Hi < Di:", Transfer::In(18), Transfer::In(36))?;
    case(
        out,
        "case 8, Hi <> Do:",
        Transfer::In(512),
        Transfer::Out(512),
    )
}

fn outward(out: &mut impl Write) -> io::Result<()> {
    case(out, "case 9, Ho > Dn:", Transfer::Out(512), Transfer::None)?;
    case(
        out,
        "case 10, Ho <> Di:",
        Transfer::Out(512),
        Transfer::In(512),
    )?;
    case(
        out,
        "case 11, Ho > Do:",
        Transfer::Out(1024),
        Transfer::Out(512),
    )?;
    case(
        out,
        "case 12, Ho = Do:",
        Transfer::Out(1024),
        Transfer::Out(1024),
    )?;
    case(
        out,
        "case 13, Ho < Do:",
        Transfer::Out(512),
        Transfer::Out(1024),
    )
}

pub(crate) fn run(out: &mut impl Write) -> io::Result<()> {
    nothing(out)?;
    inward(out)?;
    outward(out)
}
