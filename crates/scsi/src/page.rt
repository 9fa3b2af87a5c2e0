// Vital product data (SPC-3, 7.6; document 02, A2): the pages that Inquiry serves with EVPD set.
ghost use Rattle.std.specs.Prelude.{◌≡◌, ◌∷◌, ◌++◌};
ghost use Rattle.wire.specs.Packet.{packet_of};
ghost use Rattle.wire.specs.Texts.{padded, vendor_text};
ghost use Rattle.scsi.specs.Page.{page_of, page_code, page_size, page_data};

use wire::digits::digits;
use wire::packet::{Packet, packet_of};
use wire::texts::VENDOR;

#[derive(Clone, Copy)]
pub enum Page {
    // 00: the list of these pages.
    Supported,
    // 80: the unit's serial number.
    Serial,
    // 83: the unit's identification.
    Identification,
}

// The page with this code, which is a byte of a command block and 32 bits of C's record; none, where no page is served,
// which is no error with something to say.
pub fn page_of(code: u32) -> Option<Page>
    ensures { result ≡ page_of code }
{
    match code {
        0x00 => Some(Page::Supported),
        0x80 => Some(Page::Serial),
        0x83 => Some(Page::Identification),
        _ => None,
    }
}

// A field of the page, and no conversion of it: it is said of one page, while `page_of` looks for one.
pub fn page_code(page: Page) -> u32
    ensures { result ≡ page_code page }
{
    match page {
        Page::Supported => 0x00,
        Page::Serial => 0x80,
        Page::Identification => 0x83,
    }
}

pub(crate) fn page_size(page: Page) -> u8
    ensures { result ≡ page_size page }
{
    match page {
        Page::Supported => 7,
        Page::Serial => 16,
        Page::Identification => 28,
    }
}

// The digits are made once, though two pages end in them: each use of `digits` would be a copy of its loop.
pub(crate) fn page_bytes(page: Page, number: u64) -> Packet
    ensures { result ≡ packet_of (page_data number page) }
{
    let serial = digits(number);
    match page {
        Page::Supported => packet_of(&[0x00, 0x00, 0x00, 0x03, 0x00, 0x80, 0x83]),
        Page::Serial => packet_of(&serial_page(serial)),
        Page::Identification => packet_of(&identification_page(serial)),
    }
}

fn serial_page(serial: [u8; 12]) -> [u8; 16]
    ensures { result ≡ 0x00 ∷ 0x80 ∷ 0x00 ∷ 0x0C ∷ serial }
{
    let mut data = [0; 16];
    data[..4].copy_from_slice(&[0x00, 0x80, 0x00, 0x0C]);
    data[4..].copy_from_slice(&serial);
    data
}

// One identifier: the vendor field with its space, then the digits.
fn identification_page(serial: [u8; 12]) -> [u8; 28]
    ensures { result ≡ (0x00 ∷ 0x83 ∷ 0x00 ∷ 0x18 ∷ 0x02 ∷ 0x01 ∷ 0x00 ∷ 0x14 ∷ padded 8 vendor_text) ++ serial }
{
    let mut data = [0x20; 28];
    data[..8].copy_from_slice(&[0x00, 0x83, 0x00, 0x18, 0x02, 0x01, 0x00, 0x14]);
    data[8..15].copy_from_slice(&VENDOR);
    data[16..].copy_from_slice(&serial);
    data
}
