// The bytes of the replies. A reply is named by its kind and the values found at the wrapper; its bytes are made when asked
// for, those of a page of the collector number, which never changes.
ghost use Rattle.std.specs.Prelude.{◌≡◌, ◌-◌};
ghost use Rattle.scsi.specs.Reply.{kind_of, reply_size, reply_packet, fixed_format, sense_data, inquiry_data, mode_data, capacity_data};

use crate::page::{Page, page_bytes, page_size};
use crate::sense::Sense;
use wire::fields::put_be32;
use wire::packet::{Packet, packet_of};
use wire::texts::{PRODUCT, VENDOR};

// A reply before its values are found, as a plan has it.
#[derive(Clone, Copy)]
pub enum ReplyKind {
    Sense,
    Inquiry,
    Page(Page),
    ModeSense,
    Capacity,
}

#[derive(Clone, Copy)]
pub enum Reply {
    Sense(Sense),
    Inquiry,
    Page(Page),
    ModeSense { protected: bool },
    Capacity { blocks: u32 },
}

// It leaves the values out, so it is no conversion.
pub fn kind_of(reply: Reply) -> ReplyKind
    ensures { result ≡ kind_of reply }
{
    match reply {
        Reply::Sense(_) => ReplyKind::Sense,
        Reply::Inquiry => ReplyKind::Inquiry,
        Reply::Page(page) => ReplyKind::Page(page),
        Reply::ModeSense { .. } => ReplyKind::ModeSense,
        Reply::Capacity { .. } => ReplyKind::Capacity,
    }
}

// How long the whole of a reply is.
pub fn reply_size(kind: ReplyKind) -> u8
    ensures { result ≡ reply_size kind }
{
    match kind {
        ReplyKind::Sense => 18,
        ReplyKind::Inquiry => 36,
        ReplyKind::Page(page) => page_size(page),
        ReplyKind::ModeSense => 4,
        ReplyKind::Capacity => 8,
    }
}

// The whole, before it is cut.
pub fn reply_bytes(reply: Reply, number: u64) -> Packet
    ensures { result ≡ reply_packet number reply }
{
    match reply {
        Reply::Sense(sense) => packet_of(&sense_data(sense)),
        Reply::Inquiry => packet_of(&inquiry_data()),
        Reply::Page(page) => page_bytes(page, number),
        Reply::ModeSense { protected } => packet_of(&mode_data(protected)),
        Reply::Capacity { blocks } => packet_of(&capacity_data(blocks)),
    }
}

// Bit 7 of the code says whether the information has something to tell.
fn fixed_format(code: u8, information: u32, sense: Sense) -> [u8; 18]
    ensures { result ≡ fixed_format code information sense }
{
    let mut data = [0; 18];
    put_be32(&mut data, 3, information);
    data[0] = code;
    data[2] = sense.key;
    data[7] = 0x0A;
    data[12] = sense.asc;
    data[13] = sense.ascq;
    data
}

// A range failure tells its block.
fn sense_data(sense: Sense) -> [u8; 18]
    ensures { result ≡ sense_data sense }
{
    if sense.is_out_of_range() {
        fixed_format(0xF0, sense.information, sense)
    } else {
        fixed_format(0x70, 0, sense)
    }
}

fn inquiry_data() -> [u8; 36]
    ensures { result ≡ inquiry_data }
{
    let mut data = [0x20; 36];
    data[..8].copy_from_slice(&[0x00, 0x80, 0x05, 0x02, 0x1F, 0x00, 0x00, 0x00]);
    data[8..15].copy_from_slice(&VENDOR);
    data[16..28].copy_from_slice(&PRODUCT);
    data[32..].copy_from_slice(b"0100");
    data
}

// The device-specific parameter has one bit of ours, WP.
fn mode_data(protected: bool) -> [u8; 4]
    ensures { result ≡ mode_data protected }
{
    [0x03, 0x00, if protected { 0x80 } else { 0x00 }, 0x00]
}

// The last block's number, not the count; a unit of no blocks has none, and 0 stands for it.
fn last_block(blocks: u32) -> u32
    ensures { result ≡ blocks - 1 }
{
    blocks.saturating_sub(1)
}

fn capacity_data(blocks: u32) -> [u8; 8]
    ensures { result ≡ capacity_data blocks }
{
    let mut data = [0; 8];
    put_be32(&mut data, 0, last_block(blocks));
    put_be32(&mut data, 4, 512);
    data
}
