// Fields of two and four bytes in slices, least byte first (USB, wrappers) and greatest byte first (SCSI).
// Eight names and no trait: each says a width and an order where it is called, and a trait would have the same eight bodies.
ghost use Rattle.std.specs.Prelude.{◌≡◌};
ghost use Rattle.wire.specs.Numbers.{little, big, little_bytes, big_bytes};
ghost use Rattle.wire.specs.Slices.{bytes_at, fits, placed};

use crate::slices::{byte, put};

// The N bytes from a place on; those past the end count as 0.
fn bytes_at<const N: usize>(s: &[u8], at: usize) -> [u8; N]
    ensures { result ≡ bytes_at N at s.now }
{
    let rest = s.get(at..).unwrap_or(&[]);
    let mut bytes = [0; N];
    for (i, x) in bytes.iter_mut().enumerate() {
        *x = byte(rest, i);
    }
    bytes
}

pub fn le16(s: &[u8], at: usize) -> u16
    ensures { result ≡ little (bytes_at 2 at s.now) }
{
    u16::from_le_bytes(bytes_at(s, at))
}

pub fn be16(s: &[u8], at: usize) -> u16
    ensures { result ≡ big (bytes_at 2 at s.now) }
{
    u16::from_be_bytes(bytes_at(s, at))
}

pub fn le32(s: &[u8], at: usize) -> u32
    ensures { result ≡ little (bytes_at 4 at s.now) }
{
    u32::from_le_bytes(bytes_at(s, at))
}

pub fn be32(s: &[u8], at: usize) -> u32
    ensures { result ≡ big (bytes_at 4 at s.now) }
{
    u32::from_be_bytes(bytes_at(s, at))
}

pub fn put_le16(dst: &mut [u8], at: usize, x: u16) -> bool
    ensures { (result ≡ fits dst.old at (little_bytes 2 x)) × (dst.new ≡ placed dst.old at (little_bytes 2 x)) }
{
    put(dst, at, &u16::to_le_bytes(x))
}

pub fn put_be16(dst: &mut [u8], at: usize, x: u16) -> bool
    ensures { (result ≡ fits dst.old at (big_bytes 2 x)) × (dst.new ≡ placed dst.old at (big_bytes 2 x)) }
{
    put(dst, at, &u16::to_be_bytes(x))
}

pub fn put_le32(dst: &mut [u8], at: usize, x: u32) -> bool
    ensures { (result ≡ fits dst.old at (little_bytes 4 x)) × (dst.new ≡ placed dst.old at (little_bytes 4 x)) }
{
    put(dst, at, &u32::to_le_bytes(x))
}

pub fn put_be32(dst: &mut [u8], at: usize, x: u32) -> bool
    ensures { (result ≡ fits dst.old at (big_bytes 4 x)) × (dst.new ≡ placed dst.old at (big_bytes 4 x)) }
{
    put(dst, at, &u32::to_be_bytes(x))
}
