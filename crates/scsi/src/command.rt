// The command reader: a command block, read where it stands, the number of blocks and the write protection
// give what the device has for it.
ghost use Rattle.std.specs.Prelude.{ℕ, ◌≡◌, Bool};
ghost use Rattle.scsi.specs.Command.{block_length, control_clear, plan_of, plan_by, allocation, cut, paged, first_outside, unless_protected, ranged_of};
ghost use Rattle.scsi.specs.Page.{page_of};
ghost use Rattle.scsi.specs.Command.{request_sense, inquiry, mode_sense, prevent_allow, read10, write10, verify10};

use crate::page::page_of;
use crate::reply::{ReplyKind, reply_size};
use crate::sense::Sense;
use wire::fields::{be16, be32};
use wire::slices::byte;

// What the device has for a command.
#[derive(Clone, Copy)]
pub enum Plan {
    // It fails, with this sense, and has no data.
    Failed(Sense),
    // It passes, and has no data.
    Nothing,
    // A reply, cut to the allocation length.
    Reply { kind: ReplyKind, size: u8 },
    // Blocks of the medium, to the host or from it.
    Read { block: u32, count: u16 },
    Write { block: u32, count: u16 },
}

// How many bytes of a command block its code needs: of an unknown one its code alone.
pub fn block_length(code: u8) -> u8
    ensures { result ≡ block_length code }
{
    match code {
        0x00 | 0x03 | 0x12 | 0x1A | 0x1E => 6,
        0x25 | 0x28 | 0x2A | 0x2F => 10,
        _ => 1,
    }
}

// A known command's last byte is its control byte. A host that sets LINK or NACA there, bits 0 and 2, would assume that we obey;
// bit 1 is obsolete. The other five are ignored.
fn is_control_clear(block: &[u8]) -> bool
    ensures { result ≡ control_clear block.now }
{
    match block_length(byte(block, 0)) {
        // Of an unknown code it is not known which byte that is.
        0 | 1 => true,
        size => byte(block, (size - 1) as usize) & 0x07 == 0,
    }
}

pub fn plan_of(block: &[u8], blocks: u32, protected: bool) -> Plan
    ensures { result ≡ plan_of block.now blocks protected }
{
    if !is_control_clear(block) {
        return Plan::Failed(Sense::INVALID_FIELD);
    }
    match byte(block, 0) {
        0x00 => Plan::Nothing,
        0x03 => request_sense(block),
        0x12 => inquiry(block),
        0x1A => mode_sense(block),
        0x1E => prevent_allow(block),
        0x25 => Plan::Reply {
            kind: ReplyKind::Capacity,
            size: 8,
        },
        0x28 => read10(block, blocks),
        0x2A => write10(block, blocks, protected),
        0x2F => verify10(block, blocks),
        _ => Plan::Failed(Sense::INVALID_CODE),
    }
}

// A reply, cut to the allocation length.
fn cut(kind: ReplyKind, allocated: u16) -> Plan
    ensures { result ≡ cut kind allocated }
{
    let size = allocated.min(reply_size(kind) as u16) as u8;
    Plan::Reply { kind, size }
}

// A reply whose allocation length is byte 4.
fn reply(kind: ReplyKind, block: &[u8]) -> Plan
    ensures { result ≡ cut kind (allocation block.now) }
{
    cut(kind, byte(block, 4) as u16)
}

// A page by its code; one that is not served fails whatever the allocation length.
fn page(code: u8, allocated: u16) -> Plan
    ensures { result ≡ paged (page_of code) allocated }
{
    match page_of(code as u32) {
        Some(page) => cut(ReplyKind::Page(page), allocated),
        None => Plan::Failed(Sense::INVALID_FIELD),
    }
}

// The first block outside the unit that a command from this address on meets.
fn first_outside(address: u32, blocks: u32) -> u32
    ensures { result ≡ first_outside address blocks }
{
    address.max(blocks)
}

// What a unit has for a Write, if it is not write protected.
fn unless_protected(protected: bool, given: Plan) -> Plan
    ensures { result ≡ unless_protected protected given }
{
    if protected {
        Plan::Failed(Sense::WRITE_PROTECTED)
    } else {
        given
    }
}

// A command on blocks has what is given, if its flags are clear and its blocks lie in the unit.
// The sum is taken in 64 bits: it may pass the largest u32.
fn ranged(block: &[u8], blocks: u32, given: Plan) -> Plan
    ensures { result ≡ ranged_of blocks block.now given }
{
    if byte(block, 1) & 0xE0 != 0 {
        return Plan::Failed(Sense::INVALID_FIELD);
    }
    let first = be32(block, 2);
    let count = be16(block, 7);
    if (blocks as u64) < (first as u64) + (count as u64) {
        Plan::Failed(Sense::out_of_range(first_outside(first, blocks)))
    } else {
        given
    }
}

fn request_sense(block: &[u8]) -> Plan
    ensures { (n : ℕ) (p : Bool) → result ≡ plan_by request_sense n p block.now }
{
    if byte(block, 1) & 0x01 != 0 {
        Plan::Failed(Sense::INVALID_FIELD)
    } else {
        reply(ReplyKind::Sense, block)
    }
}

// With EVPD set a page, else the standard data.
fn inquiry(block: &[u8]) -> Plan
    ensures { (n : ℕ) (p : Bool) → result ≡ plan_by inquiry n p block.now }
{
    let evpd = byte(block, 1) & 0x01 != 0;
    let code = byte(block, 2);
    let allocated = be16(block, 3);
    if evpd {
        page(code, allocated)
    } else if code == 0 {
        cut(ReplyKind::Inquiry, allocated)
    } else {
        Plan::Failed(Sense::INVALID_FIELD)
    }
}

fn mode_sense(block: &[u8]) -> Plan
    ensures { (n : ℕ) (p : Bool) → result ≡ plan_by mode_sense n p block.now }
{
    if byte(block, 2) == 0x3F {
        reply(ReplyKind::ModeSense, block)
    } else {
        Plan::Failed(Sense::INVALID_FIELD)
    }
}

fn prevent_allow(block: &[u8]) -> Plan
    ensures { (n : ℕ) (p : Bool) → result ≡ plan_by prevent_allow n p block.now }
{
    if byte(block, 4) & 0x01 != 0 {
        Plan::Failed(Sense::INVALID_FIELD)
    } else {
        Plan::Nothing
    }
}

fn read10(block: &[u8], blocks: u32) -> Plan
    ensures { (p : Bool) → result ≡ plan_by read10 blocks p block.now }
{
    ranged(
        block,
        blocks,
        Plan::Read {
            block: be32(block, 2),
            count: be16(block, 7),
        },
    )
}

// The range comes first: a protected unit has its sense for a Write in the place of the Write.
fn write10(block: &[u8], blocks: u32, protected: bool) -> Plan
    ensures { result ≡ plan_by write10 blocks protected block.now }
{
    let write = Plan::Write {
        block: be32(block, 2),
        count: be16(block, 7),
    };
    ranged(block, blocks, unless_protected(protected, write))
}

fn verify10(block: &[u8], blocks: u32) -> Plan
    ensures { (p : Bool) → result ≡ plan_by verify10 blocks p block.now }
{
    if byte(block, 1) & 0x02 != 0 {
        Plan::Failed(Sense::INVALID_FIELD)
    } else {
        ranged(block, blocks, Plan::Nothing)
    }
}
