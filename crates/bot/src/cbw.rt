// The command wrapper (BOT 5.1).
ghost use Rattle.std.specs.Prelude.{◌≡◌};
ghost use Rattle.bot.specs.Cbw.{in_range, readable, writable, read_header, shown_header, direction, cbw_bytes, read_cbw, shown, write_cbw};
ghost use Rattle.bot.specs.Answer.{written};

use crate::refused::Refused;
use wire::fields::{le32, put_le32};
use wire::slices::{put, starts_with};

// The wrapper's fields before the command block.
#[derive(Clone, Copy, Debug, PartialEq, Eq)]
pub struct Header {
    pub tag: u32,
    // How many bytes of data the host expects to move, and whether towards itself.
    pub announced: u32,
    pub inward: bool,
    pub lun: u8,
    // The command block's length.
    pub size: u8,
}

#[derive(Clone, Copy, Debug, PartialEq, Eq)]
pub struct Cbw {
    pub header: Header,
    pub block: [u8; 16],
}

// Bytes 12 to 14: reserved bits are clear, and the block length is 1 to 16.
fn is_in_range(flags: u8, lun: u8, size: u8) -> bool
    ensures { result ≡ in_range flags lun size }
{
    flags & 0x7F == 0 && lun & 0xF0 == 0 && size & 0xE0 == 0 && (1..=16).contains(&size)
}

fn is_readable(bytes: &[u8]) -> bool
    ensures { result ≡ readable bytes.now }
{
    bytes.len() == 31 && starts_with(bytes, b"USBC") && is_in_range(bytes[12], bytes[13], bytes[14])
}

// The fields alone: the command block is read where it stands, from byte 15 on.
pub fn read_header(bytes: &[u8]) -> Option<Header>
    ensures { shown_header result ≡ read_header bytes.now }
{
    if !is_readable(bytes) {
        return None;
    }
    Some(Header {
        tag: le32(bytes, 4),
        announced: le32(bytes, 8),
        inward: bytes[12] >> 7 != 0,
        lun: bytes[13] & 0x0F,
        size: bytes[14] & 0x1F,
    })
}

pub fn read_cbw(bytes: &[u8]) -> Result<Cbw, Refused>
    ensures { shown result ≡ read_cbw bytes.now }
{
    let header = read_header(bytes).ok_or(Refused)?;
    let mut block = [0; 16];
    block.copy_from_slice(&bytes[15..]);
    Ok(Cbw { header, block })
}

// Byte 12 of the wrapper.
#[tactic(auto, unfolding(crate::specs::Cbw::direction))]
fn direction_byte(inward: bool) -> u8
    ensures { result ≡ direction inward }
{
    if inward { 1 << 7 } else { 0 }
}

fn cbw_bytes(cbw: Cbw) -> [u8; 31]
    ensures { result ≡ cbw_bytes cbw }
{
    let mut bytes = [0; 31];
    put(&mut bytes, 0, b"USBC");
    put_le32(&mut bytes, 4, cbw.header.tag);
    put_le32(&mut bytes, 8, cbw.header.announced);
    bytes[12] = direction_byte(cbw.header.inward);
    bytes[13] = cbw.header.lun;
    bytes[14] = cbw.header.size;
    put(&mut bytes, 15, &cbw.block);
    bytes
}

fn is_writable(header: Header) -> bool
    ensures { result ≡ writable header }
{
    header.lun <= 15 && (1..=16).contains(&header.size)
}

pub fn write_cbw(cbw: Cbw, buffer: &mut [u8]) -> Result<usize, Refused>
    ensures { written result buffer.new ≡ write_cbw cbw buffer.old }
{
    if is_writable(cbw.header) && put(buffer, 0, &cbw_bytes(cbw)) {
        Ok(31)
    } else {
        Err(Refused)
    }
}
