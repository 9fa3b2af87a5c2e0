// The control requests of document 01, and some that stall.
// The words for what an enum of another crate names are functions: a Display would need a type of its own for each.
use hexprint::Hex;
use std::io;
use std::io::Write;
use usb::descriptor::Descriptor;
use usb::request::{Endpoint, Request, request_of};

fn pipe(endpoint: Endpoint) -> &'static str {
    match endpoint {
        Endpoint::Control => " control",
        Endpoint::BulkIn => " bulk-in",
        Endpoint::BulkOut => " bulk-out",
    }
}

fn descriptor(which: Descriptor) -> &'static str {
    match which {
        Descriptor::Device => " device descriptor",
        Descriptor::Configuration => " configuration descriptor",
        Descriptor::Languages => " languages",
        Descriptor::Vendor => " vendor string",
        Descriptor::Product => " product string",
        Descriptor::Serial => " serial string",
    }
}

fn show(out: &mut impl Write, request: Request) -> io::Result<()> {
    match request {
        Request::SetAddress { address } => write!(out, " set address{}", Hex(&[address])),
        Request::SetConfiguration { value } => write!(out, " set configuration{}", Hex(&[value])),
        Request::GetConfiguration => write!(out, " get configuration"),
        Request::GetDeviceStatus => write!(out, " get device status"),
        Request::GetInterfaceStatus => write!(out, " get interface status"),
        Request::GetEndpointStatus { endpoint } => write!(out, " get status of{}", pipe(endpoint)),
        Request::ClearHalt { endpoint } => write!(out, " clear halt of{}", pipe(endpoint)),
        Request::SetHalt { endpoint } => write!(out, " set halt of{}", pipe(endpoint)),
        Request::MassStorageReset => write!(out, " mass storage reset"),
        Request::GetMaxLun => write!(out, " get max lun"),
        Request::GetDescriptor { which, wlength } => {
            let length = wlength.to_be_bytes();
            write!(out, " get{}{}", descriptor(which), Hex(&length))
        }
        Request::Stall => write!(out, " stall"),
    }
}

// A setup's bytes, and the request that they ask for.
fn decoded(out: &mut impl Write, s: &[u8]) -> io::Result<()> {
    write!(out, "setup{}:", Hex(s))?;
    show(out, request_of(s))?;
    writeln!(out)
}

// Eight bytes, written as a number.
fn setup(out: &mut impl Write, number: u64) -> io::Result<()> {
    decoded(out, &number.to_be_bytes())
}

fn device(out: &mut impl Write) -> io::Result<()> {
    setup(out, 0x0005_7F00_0000_0000)?;
    setup(out, 0x0009_0100_0000_0000)?;
    setup(out, 0x8008_0000_0000_0100)?;
    setup(out, 0x8000_0000_0000_0200)?;
    setup(out, 0x8100_0000_0000_0200)
}

fn endpoints(out: &mut impl Write) -> io::Result<()> {
    setup(out, 0x8200_0000_8100_0200)?;
    setup(out, 0x8200_0000_8000_0200)?;
    setup(out, 0x0201_0000_0200_0000)?;
    setup(out, 0x0203_0000_8100_0000)?;
    setup(out, 0x21FF_0000_0000_0000)?;
    setup(out, 0xA1FE_0000_0000_0100)
}

fn descriptors(out: &mut impl Write) -> io::Result<()> {
    setup(out, 0x8006_0001_0000_1200)?;
    setup(out, 0x8006_0002_0000_FF00)?;
    setup(out, 0x8006_0003_0000_FF00)?;
    setup(out, 0x8006_0103_0904_FF00)?;
    setup(out, 0x8006_0203_0904_FF00)?;
    setup(out, 0x8006_0303_0904_0001)
}

// An address over 7F, Get Interface, Device Qualifier, another language, a setup of seven bytes.
fn stalls(out: &mut impl Write) -> io::Result<()> {
    setup(out, 0x0005_8000_0000_0000)?;
    setup(out, 0x810A_0000_0000_0100)?;
    setup(out, 0x8006_0006_0000_0A00)?;
    setup(out, 0x8006_0303_0704_FF00)?;
    decoded(out, &[0x00, 0x09, 0x01, 0x00, 0x00, 0x00, 0x00])
}

pub(crate) fn run(out: &mut impl Write) -> io::Result<()> {
    device(out)?;
    endpoints(out)?;
    descriptors(out)?;
    stalls(out)
}
