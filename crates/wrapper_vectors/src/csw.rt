// The status wrapper of the bench sheet: tag 826A6008 (source document 002), residue 0, passed.
// The words for what an enum of another crate names are functions: a Display would need a type of its own for each.
use crate::answer::{ended, written};
use bot::csw::{Csw, Status, read_csw, write_csw};
use hexprint::Hex;
use std::io;
use std::io::Write;

fn status_word(status: Status) -> &'static str {
    match status {
        Status::Passed => " passed",
        Status::Failed => " failed",
        Status::PhaseError => " phase error",
    }
}

fn fields(out: &mut impl Write, csw: Csw) -> io::Result<()> {
    write!(
        out,
        " tag{} residue{}{}",
        Hex(&csw.tag.to_be_bytes()),
        Hex(&csw.residue.to_be_bytes()),
        status_word(csw.status)
    )
}

fn read(out: &mut impl Write, name: &str, s: &[u8]) -> io::Result<()> {
    ended(out, name, read_csw(s), |out, value| fields(out, value))
}

pub(crate) fn run(out: &mut impl Write) -> io::Result<()> {
    let csw = Csw {
        tag: 0x826A6008,
        residue: 0,
        status: Status::Passed,
    };
    let mut buffer = [0; 13];
    let answer = write_csw(csw, &mut buffer);
    written(out, "csw written:", answer, &buffer)?;
    read(out, "csw read:", &buffer)?;
    buffer[12] = 3;
    read(out, "csw of status 3:", &buffer)
}
