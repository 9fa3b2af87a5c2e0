// The replies of document 01's commands, the pages of document 02, A2, the write switch of A4 and the block of A8.
use hexprint::line;
use scsi::page::Page;
use scsi::reply::{Reply, reply_bytes};
use scsi::sense::Sense;
use std::io;
use std::io::Write;

fn capacity(out: &mut impl Write, name: &str, blocks: u32) -> io::Result<()> {
    line(out, name, reply_bytes(Reply::Capacity { blocks }, 42))
}

fn page(out: &mut impl Write, name: &str, page: Page, number: u64) -> io::Result<()> {
    line(out, name, reply_bytes(Reply::Page(page), number))
}

fn mode_sense(out: &mut impl Write, name: &str, protected: bool) -> io::Result<()> {
    line(out, name, reply_bytes(Reply::ModeSense { protected }, 42))
}

pub(crate) fn run(out: &mut impl Write) -> io::Result<()> {
    line(out, "inquiry:", reply_bytes(Reply::Inquiry, 42))?;
    page(out, "page 00:", Page::Supported, 42)?;
    page(out, "page 80 of 42:", Page::Serial, 42)?;
    page(
        out,
        "page 80 of 999999999999:",
        Page::Serial,
        999_999_999_999,
    )?;
    page(out, "page 83 of 42:", Page::Identification, 42)?;
    line(
        out,
        "sense 05/21/00, block 128:",
        reply_bytes(Reply::Sense(Sense::out_of_range(128)), 42),
    )?;
    line(
        out,
        "sense 05/24/00:",
        reply_bytes(Reply::Sense(Sense::INVALID_FIELD), 42),
    )?;
    line(
        out,
        "sense 07/27/00:",
        reply_bytes(Reply::Sense(Sense::WRITE_PROTECTED), 42),
    )?;
    mode_sense(out, "mode sense:", false)?;
    mode_sense(out, "mode sense, protected:", true)?;
    capacity(out, "capacity of 128:", 128)?;
    capacity(out, "capacity of 1048576:", 1_048_576)?;
    capacity(out, "capacity of 1:", 1)
}
