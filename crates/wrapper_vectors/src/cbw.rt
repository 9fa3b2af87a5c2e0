// The command wrapper of source document 002's listing: Read Capacity, tag 826A6008.
// The words for what an enum of another crate names are functions: a Display would need a type of its own for each.
use crate::answer::{ended, written};
use bot::cbw::{Cbw, Header, read_cbw, write_cbw};
use hexprint::Hex;
use std::io;
use std::io::Write;

fn direction(inward: bool) -> &'static str {
    if inward { " in" } else { " out" }
}

fn fields(out: &mut impl Write, cbw: Cbw) -> io::Result<()> {
    write!(
        out,
        " tag{} announced{}{} unit{} length{} block{}",
        Hex(&cbw.header.tag.to_be_bytes()),
        Hex(&cbw.header.announced.to_be_bytes()),
        direction(cbw.header.inward),
        Hex(&[cbw.header.lun]),
        Hex(&[cbw.header.size]),
        Hex(&cbw.block)
    )
}

fn read(out: &mut impl Write, name: &str, s: &[u8]) -> io::Result<()> {
    ended(out, name, read_cbw(s), |out, value| fields(out, value))
}

fn read_capacity(lun: u8) -> Cbw {
    let mut block = [0; 16];
    block[0] = 0x25;
    Cbw {
        header: Header {
            tag: 0x826A6008,
            announced: 8,
            inward: true,
            lun,
            size: 10,
        },
        block,
    }
}

fn whole(out: &mut impl Write) -> io::Result<()> {
    let mut buffer = [0; 31];
    let answer = write_cbw(read_capacity(0), &mut buffer);
    written(out, "cbw written:", answer, &buffer)?;
    read(out, "cbw read:", &buffer)
}

// The same wrapper without its last byte.
fn cut(out: &mut impl Write) -> io::Result<()> {
    read(
        out,
        "cbw of 30 bytes:",
        b"USBC\x08\x60\x6A\x82\x08\0\0\0\x80\0\x0A\x25\0\0\0\0\0\0\0\0\0\0\0\0\0\0",
    )
}

fn short_buffer(out: &mut impl Write) -> io::Result<()> {
    let mut buffer = [0; 30];
    let answer = write_cbw(read_capacity(0), &mut buffer);
    written(out, "cbw to a buffer of 30 bytes:", answer, &buffer)
}

fn unit_16(out: &mut impl Write) -> io::Result<()> {
    let mut buffer = [0; 31];
    let answer = write_cbw(read_capacity(16), &mut buffer);
    written(out, "cbw of unit 16:", answer, &buffer)
}

pub(crate) fn run(out: &mut impl Write) -> io::Result<()> {
    whole(out)?;
    cut(out)?;
    short_buffer(out)?;
    unit_16(out)
}
