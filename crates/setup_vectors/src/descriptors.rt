// The descriptors of document 01.
use hexprint::line;
use std::io;
use std::io::Write;
use usb::descriptor::{Descriptor, Identity, descriptor_bytes};

fn numbered(number: u64) -> Identity {
    Identity {
        number,
        vendor: 0,
        product: 0,
        release: 0x0100,
    }
}

fn serial(out: &mut impl Write, name: &str, number: u64) -> io::Result<()> {
    line(
        out,
        name,
        descriptor_bytes(Descriptor::Serial, numbered(number)),
    )
}

fn fixed(out: &mut impl Write, name: &str, which: Descriptor) -> io::Result<()> {
    line(out, name, descriptor_bytes(which, numbered(42)))
}

pub(crate) fn run(out: &mut impl Write) -> io::Result<()> {
    serial(out, "serial 42:", 42)?;
    serial(out, "serial 0:", 0)?;
    serial(out, "serial 999999999999:", 999999999999)?;
    fixed(out, "device 0000 0000 0100:", Descriptor::Device)?;
    // numbers that show their byte order and their places
    let other = Identity {
        number: 42,
        vendor: 0x1234,
        product: 0x5678,
        release: 0x9ABC,
    };
    line(
        out,
        "device 1234 5678 9ABC:",
        descriptor_bytes(Descriptor::Device, other),
    )?;
    fixed(out, "configuration:", Descriptor::Configuration)?;
    fixed(out, "languages:", Descriptor::Languages)?;
    fixed(out, "vendor:", Descriptor::Vendor)?;
    fixed(out, "product:", Descriptor::Product)
}
