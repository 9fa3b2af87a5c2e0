// What a unit of 128 blocks has for a command block.
// The words for what an enum of another crate names are functions: a Display would need a type of its own for each.
use hexprint::Hex;
use scsi::command::{Plan, block_length, plan_of};
use scsi::page::Page;
use scsi::reply::ReplyKind;
use scsi::sense::Sense;
use std::io;
use std::io::Write;
use wire::slices::byte;

fn sense(out: &mut impl Write, s: Sense) -> io::Result<()> {
    write!(out, "{}", Hex(&[s.key, s.asc, s.ascq]))?;
    if s.is_out_of_range() {
        write!(out, " block{}", Hex(&s.information.to_be_bytes()))?;
    }
    Ok(())
}

fn reply(kind: ReplyKind) -> &'static str {
    match kind {
        ReplyKind::Sense => " sense",
        ReplyKind::Inquiry => " inquiry",
        ReplyKind::Page(Page::Supported) => " page 00",
        ReplyKind::Page(Page::Serial) => " page 80",
        ReplyKind::Page(Page::Identification) => " page 83",
        ReplyKind::ModeSense => " mode sense",
        ReplyKind::Capacity => " capacity",
    }
}

fn blocks(out: &mut impl Write, name: &str, block: u32, count: u16) -> io::Result<()> {
    write!(
        out,
        " {name}{} count{}",
        Hex(&block.to_be_bytes()),
        Hex(&count.to_be_bytes())
    )
}

fn show(out: &mut impl Write, plan: Plan) -> io::Result<()> {
    match plan {
        Plan::Failed(s) => {
            write!(out, " failed")?;
            sense(out, s)
        }
        Plan::Nothing => write!(out, " nothing"),
        Plan::Reply { kind, size } => write!(out, " reply{}{}", reply(kind), Hex(&[size])),
        Plan::Read { block, count } => blocks(out, "read", block, count),
        Plan::Write { block, count } => blocks(out, "write", block, count),
    }
}

// A command block's bytes, how many of them its code needs, and the plan.
fn planned(out: &mut impl Write, s: &[u8], protected: bool) -> io::Result<()> {
    if protected {
        write!(out, "protected, ")?;
    }
    let needed = block_length(byte(s, 0));
    write!(out, "block{}: needs{},", Hex(s), Hex(&[needed]))?;
    show(out, plan_of(s, 128, protected))?;
    writeln!(out)
}

// Ten bytes, written as two numbers.
fn block_on(out: &mut impl Write, front: u64, back: u16, protected: bool) -> io::Result<()> {
    let mut s = [0; 10];
    s[..8].copy_from_slice(&front.to_be_bytes());
    s[8..].copy_from_slice(&back.to_be_bytes());
    planned(out, &s, protected)
}

// Two names for `block_on`, so that not every row below has a `true` or a `false` at its end.
fn block(out: &mut impl Write, front: u64, back: u16) -> io::Result<()> {
    block_on(out, front, back, false)
}

fn protected_block(out: &mut impl Write, front: u64, back: u16) -> io::Result<()> {
    block_on(out, front, back, true)
}

// Read 127 count 1, 128 count 0, 128 count 1, FFFFFFFF count 1, 0 count 1 with flag bit 5; Write 126 count 2; Verify 0 count 128; Read
// 120 count 10, Write 127 count 2, Verify 129 count 0.
fn ranges(out: &mut impl Write) -> io::Result<()> {
    block(out, 0x2800_0000_007F_0000, 0x0100)?;
    block(out, 0x2800_0000_0080_0000, 0x0000)?;
    block(out, 0x2800_0000_0080_0000, 0x0100)?;
    block(out, 0x2800_FFFF_FFFF_0000, 0x0100)?;
    block(out, 0x2820_0000_0000_0000, 0x0100)?;
    block(out, 0x2A00_0000_007E_0000, 0x0200)?;
    block(out, 0x2F00_0000_0000_0000, 0x8000)?;
    block(out, 0x2800_0000_0078_0000, 0x0A00)?;
    block(out, 0x2A00_0000_007F_0000, 0x0200)?;
    block(out, 0x2F00_0000_0081_0000, 0x0000)
}

// Test Unit Ready; Prevent/Allow, allow and prevent; Inquiry of 5 and of 36 bytes, Request Sense of 18, Mode Sense of 192; Read
// Capacity; an unknown code, in a block of one byte.
fn others(out: &mut impl Write) -> io::Result<()> {
    block(out, 0x0000_0000_0000_0000, 0x0000)?;
    block(out, 0x1E00_0000_0000_0000, 0x0000)?;
    block(out, 0x1E00_0000_0100_0000, 0x0000)?;
    block(out, 0x1200_0000_0500_0000, 0x0000)?;
    block(out, 0x1200_0000_2400_0000, 0x0000)?;
    block(out, 0x0300_0000_1200_0000, 0x0000)?;
    block(out, 0x1A00_3F00_C000_0000, 0x0000)?;
    block(out, 0x2500_0000_0000_0000, 0x0000)?;
    planned(out, &[0xFF], false)
}

// The control byte: LINK in Test Unit Ready's, NACA in Inquiry's, bit 1 in a Read's, LINK in one of a Read out of range; Read of block 7,
// whose byte 5 is a part of the address; bits 3 to 7 in both lengths, with 07 in a byte past the first; an unknown code.
fn control_bytes(out: &mut impl Write) -> io::Result<()> {
    block(out, 0x0000_0000_0001_0000, 0x0000)?;
    block(out, 0x1200_0000_2404_0000, 0x0000)?;
    block(out, 0x2800_0000_0000_0000, 0x0102)?;
    block(out, 0x2800_0000_0080_0000, 0x0101)?;
    block(out, 0x2800_0000_0007_0000, 0x0100)?;
    block(out, 0x0000_0000_00F8_0000, 0x0007)?;
    block(out, 0x2500_0000_0000_0000, 0x00F8)?;
    block(out, 0x0F00_0000_0007_0000, 0x0007)
}

// Allocation lengths: Inquiry of 256, of 261 (byte 4 is 5), of 65,535, of 35 and of none; Request Sense and Mode Sense with byte 3 at 1,
// which is no part of theirs.
fn allocation_lengths(out: &mut impl Write) -> io::Result<()> {
    block(out, 0x1200_0001_0000_0000, 0x0000)?;
    block(out, 0x1200_0001_0500_0000, 0x0000)?;
    block(out, 0x1200_00FF_FF00_0000, 0x0000)?;
    block(out, 0x1200_0000_2300_0000, 0x0000)?;
    block(out, 0x1200_0000_0000_0000, 0x0000)?;
    block(out, 0x0300_0001_0400_0000, 0x0000)?;
    block(out, 0x1A00_3F01_0300_0000, 0x0000)
}

// Product pages: each whole, page 80 cut by a byte, page 83 of 256, page 00 of none, page 80 with every ignored bit of byte 1 set; a page
// that is not served, of 255 and of none; byte 2 without EVPD; NACA.
fn product_pages(out: &mut impl Write) -> io::Result<()> {
    block(out, 0x1201_0000_FF00_0000, 0x0000)?;
    block(out, 0x1201_8000_FF00_0000, 0x0000)?;
    block(out, 0x1201_8300_FF00_0000, 0x0000)?;
    block(out, 0x1201_8000_0F00_0000, 0x0000)?;
    block(out, 0x1201_8301_0000_0000, 0x0000)?;
    block(out, 0x1201_0000_0000_0000, 0x0000)?;
    block(out, 0x12FF_8000_1000_0000, 0x0000)?;
    block(out, 0x1201_8100_FF00_0000, 0x0000)?;
    block(out, 0x1201_8100_0000_0000, 0x0000)?;
    block(out, 0x1200_8000_FF00_0000, 0x0000)?;
    block(out, 0x1201_8000_FF04_0000, 0x0000)
}

// The write switch is closed: Write 126 count 2, 0 count 0, 128 count 0; Write 127 count 2 and 129 count 0, which are out of range; Write 0
// count 1 with flag bit 5, and 127 count 2 with it; Write 0 count 1 with NACA. Of the others Read 127 count 1, Verify 0 count 128, Test
// Unit Ready, Mode Sense of 192.
fn write_protected(out: &mut impl Write) -> io::Result<()> {
    protected_block(out, 0x2A00_0000_007E_0000, 0x0200)?;
    protected_block(out, 0x2A00_0000_0000_0000, 0x0000)?;
    protected_block(out, 0x2A00_0000_0080_0000, 0x0000)?;
    protected_block(out, 0x2A00_0000_007F_0000, 0x0200)?;
    protected_block(out, 0x2A00_0000_0081_0000, 0x0000)?;
    protected_block(out, 0x2A20_0000_0000_0000, 0x0100)?;
    protected_block(out, 0x2A20_0000_007F_0000, 0x0200)?;
    protected_block(out, 0x2A00_0000_0000_0000, 0x0104)?;
    protected_block(out, 0x2800_0000_007F_0000, 0x0100)?;
    protected_block(out, 0x2F00_0000_0000_0000, 0x8000)?;
    protected_block(out, 0x0000_0000_0000_0000, 0x0000)?;
    protected_block(out, 0x1A00_3F00_C000_0000, 0x0000)
}

pub(crate) fn run(out: &mut impl Write) -> io::Result<()> {
    ranges(out)?;
    others(out)?;
    control_bytes(out)?;
    allocation_lengths(out)?;
    product_pages(out)?;
    write_protected(out)
}
