// A short byte string by value: at most one USB packet, with its length. The drive has no heap, so the bytes stand in an
// array, zeros behind them.
ghost use Rattle.std.specs.Prelude.{◌≡◌};
ghost use Rattle.wire.specs.Packet.{packet_of, bytes_of};

use crate::slices::{part, put};

#[derive(Clone, Copy)]
pub struct Packet {
    pub bytes: [u8; 64],
    pub len: usize,
}

impl Packet {
    pub const EMPTY: Packet = Packet {
        bytes: [0; 64],
        len: 0,
    };

    // The bytes that it holds; none, where its length is more than 64.
    pub fn as_slice(&self) -> &[u8]
        ensures { result.now ≡ bytes_of self.now }
    {
        part(&self.bytes, 0, self.len)
    }
}

// The packet that holds the bytes of s; more than 64 are no packet, and give the empty one, as its definition does.
pub fn packet_of(s: &[u8]) -> Packet
    ensures { result ≡ packet_of s.now }
{
    let mut packet = Packet::EMPTY;
    if put(&mut packet.bytes, 0, s) {
        packet.len = s.len();
    }
    packet
}
