// The descriptors (USB 2.0, 9.5 and 9.6; BOT 4), by value with their length.
ghost use Rattle.std.specs.Prelude.{◌≡◌, ◌≤◌, length};
ghost use Rattle.wire.specs.Packet.{packet_of};
ghost use Rattle.usb.specs.Descriptor.{descriptor_packet, device_descriptor, configuration_descriptor, string_descriptor};

use wire::digits::digits;
use wire::fields::put_le16;
use wire::packet::{Packet, packet_of};
use wire::texts::{PRODUCT, VENDOR};

// The numbers given at making; they never change.
#[derive(Clone, Copy, Debug, PartialEq, Eq)]
pub struct Identity {
    pub number: u64,
    pub vendor: u16,
    pub product: u16,
    pub release: u16,
}

#[derive(Clone, Copy, Debug, PartialEq, Eq)]
pub enum Descriptor {
    Device,
    Configuration,
    Languages,
    Vendor,
    Product,
    Serial,
}

#[tactic(auto, unfolding(crate::specs::Descriptor::descriptor_packet))]
pub fn descriptor_bytes(which: Descriptor, identity: Identity) -> Packet
    ensures { result ≡ descriptor_packet which identity }
{
    match which {
        Descriptor::Device => packet_of(&device_descriptor(identity)),
        Descriptor::Configuration => packet_of(&configuration_descriptor()),
        Descriptor::Languages => packet_of(&[0x04, 0x03, 0x09, 0x04]),
        Descriptor::Vendor => string_descriptor(&VENDOR),
        Descriptor::Product => string_descriptor(&PRODUCT),
        Descriptor::Serial => string_descriptor(&digits(identity.number)),
    }
}

fn device_descriptor(identity: Identity) -> [u8; 18]
    ensures { result ≡ device_descriptor identity }
{
    let mut bytes = [
        0x12, 0x01, 0x00, 0x02, 0x00, 0x00, 0x00, 0x40, 0, 0, 0, 0, 0, 0, 0x01, 0x02, 0x03, 0x01,
    ];
    put_le16(&mut bytes, 8, identity.vendor);
    put_le16(&mut bytes, 10, identity.product);
    put_le16(&mut bytes, 12, identity.release);
    bytes
}

// The configuration, its interface and both bulk endpoints.
#[tactic(auto, unfolding(crate::specs::Descriptor::configuration_descriptor))]
fn configuration_descriptor() -> [u8; 32]
    ensures { result ≡ configuration_descriptor }
{
    [
        0x09, 0x02, 0x20, 0x00, 0x01, 0x01, 0x00, 0xC0, 0x00, 0x09, 0x04, 0x00, 0x00, 0x02, 0x08,
        0x06, 0x50, 0x00, 0x07, 0x05, 0x81, 0x02, 0x40, 0x00, 0x00, 0x07, 0x05, 0x02, 0x02, 0x40,
        0x00, 0x00,
    ]
}

// A text of ASCII characters in UTF-16, which fits a packet.
fn string_descriptor(text: &[u8]) -> Packet
    requires { length text.now ≤ 31 }
    ensures { result ≡ packet_of (string_descriptor text.now) }
{
    let len = 2 + 2 * text.len();
    let mut bytes = [0; 64];
    bytes[0] = len as u8;
    bytes[1] = 0x03;
    for (i, &c) in text.iter().enumerate() {
        bytes[2 + 2 * i] = c;
    }
    Packet { bytes, len }
}
