// The eight setup bytes, decided into a request (USB 2.0, 9.3 and 9.4; BOT 3). What is not served is a stall.
#![tactic(auto, using(crate::proofs::Choices::choices), unfolding(crate::specs::Request::request_of, crate::specs::Request::decided, crate::specs::Request::requests, crate::specs::Request::set_address, crate::specs::Request::set_configuration, crate::specs::Request::is_no_data, crate::specs::Request::bare, crate::specs::Request::target_of, crate::specs::Request::endpoint_of, crate::specs::Request::endpoints, crate::specs::Request::get_descriptor, crate::specs::Request::descriptors, crate::specs::Request::served))]

ghost use Rattle.std.specs.Prelude.{◌≡◌};
ghost use Rattle.usb.specs.Request.{is_no_data, bare, endpoint_of, target_of, get_descriptor, served, decided, request_of};

use crate::descriptor::Descriptor;
use wire::fields::{be16, le16};

#[derive(Clone, Copy, Debug, PartialEq, Eq)]
pub enum Endpoint {
    // 00 and 80: both directions of the control pipe.
    Control,
    // 81
    BulkIn,
    // 02
    BulkOut,
}

#[derive(Clone, Copy, Debug, PartialEq, Eq)]
pub enum Request {
    SetAddress { address: u8 },
    SetConfiguration { value: u8 },
    GetConfiguration,
    GetDeviceStatus,
    GetInterfaceStatus,
    GetEndpointStatus { endpoint: Endpoint },
    ClearHalt { endpoint: Endpoint },
    SetHalt { endpoint: Endpoint },
    MassStorageReset,
    GetMaxLun,
    GetDescriptor { which: Descriptor, wlength: u16 },
    Stall,
}

pub fn request_of(setup: &[u8]) -> Request
    ensures { result ≡ request_of setup.now }
{
    if setup.len() != 8 {
        return Request::Stall;
    }
    let setup = Setup {
        key: be16(setup, 0),
        value: le16(setup, 2),
        index: le16(setup, 4),
        wlength: le16(setup, 6),
    };
    setup.decide()
}

// The fields of the setup bytes; the key is type and request as one number, type first.
#[derive(Clone, Copy)]
struct Setup {
    key: u16,
    value: u16,
    index: u16,
    wlength: u16,
}

impl Setup {
    fn decide(self) -> Request
        ensures { result ≡ decided self.key self.value self.index self.wlength }
    {
        match self.key {
            0x0005 if self.is_no_data(0x7F) => Request::SetAddress {
                address: self.value as u8,
            },
            0x0009 if self.is_no_data(1) => Request::SetConfiguration {
                value: self.value as u8,
            },
            0x8008 => self.plain(1, Request::GetConfiguration),
            0x8000 => self.plain(2, Request::GetDeviceStatus),
            0x8100 => self.plain(2, Request::GetInterfaceStatus),
            0x8200 => self.halt_target(2).map_or(
                Request::Stall,
                |endpoint| Request::GetEndpointStatus { endpoint },
            ),
            0x0201 => self
                .halt_target(0)
                .map_or(Request::Stall, |endpoint| Request::ClearHalt { endpoint }),
            0x0203 => self
                .halt_target(0)
                .map_or(Request::Stall, |endpoint| Request::SetHalt { endpoint }),
            0x21FF => self.plain(0, Request::MassStorageReset),
            0xA1FE => self.plain(1, Request::GetMaxLun),
            0x8006 => self.describe(),
            _ => Request::Stall,
        }
    }

    // A request that sets a small value and has no data.
    fn is_no_data(self, most: u16) -> bool
        ensures { result ≡ is_no_data most self.value self.index self.wlength }
    {
        self.value <= most && self.index == 0 && self.wlength == 0
    }

    // A request with nothing but its length.
    fn plain(self, wanted: u16, request: Request) -> Request
        ensures { result ≡ bare wanted request self.value self.index self.wlength }
    {
        if self.value == 0 && self.index == 0 && self.wlength == wanted {
            request
        } else {
            Request::Stall
        }
    }

    // The endpoint of a halt request: the feature ENDPOINT_HALT is value 0.
    fn halt_target(self, wanted: u16) -> Option<Endpoint>
        ensures { result ≡ target_of wanted self.value self.index self.wlength }
    {
        if self.value == 0 && self.wlength == wanted {
            endpoint_of(self.index)
        } else {
            None
        }
    }

    fn describe(self) -> Request
        ensures { result ≡ get_descriptor self.value self.index self.wlength }
    {
        match self.value {
            0x0100 => self.serve(Descriptor::Device, 0),
            0x0200 => self.serve(Descriptor::Configuration, 0),
            0x0300 => self.serve(Descriptor::Languages, 0),
            0x0301 => self.serve(Descriptor::Vendor, 0x0409),
            0x0302 => self.serve(Descriptor::Product, 0x0409),
            0x0303 => self.serve(Descriptor::Serial, 0x0409),
            _ => Request::Stall,
        }
    }

    // A descriptor, if its index is the one it is served with.
    fn serve(self, which: Descriptor, wanted: u16) -> Request
        ensures { result ≡ served which wanted self.index self.wlength }
    {
        if self.index == wanted {
            Request::GetDescriptor {
                which,
                wlength: self.wlength,
            }
        } else {
            Request::Stall
        }
    }
}

// The endpoint that the device has under this index, if any; no TryFrom, whose error would have nothing to say.
fn endpoint_of(index: u16) -> Option<Endpoint>
    ensures { result ≡ endpoint_of index }
{
    match index {
        0x0000 | 0x0080 => Some(Endpoint::Control),
        0x0081 => Some(Endpoint::BulkIn),
        0x0002 => Some(Endpoint::BulkOut),
        _ => None,
    }
}
