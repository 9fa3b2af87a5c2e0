// Bytes in upper-case hex, as the programs print them: what the bench prints of a packet's data.
#![tactic(auto)]

ghost use Rattle.std.specs.Prelude.{Some, ◌++◌, take, OnOk};
ghost use Rattle.std.specs.Io.KnownBytes.{Appends};
ghost use Rattle.printout.specs.Print.{hexes, newline};

use printout::print::hex;
use std::io::Write;
use std::{fmt, io, str};
use wire::packet::Packet;

// Displays as two digits for each byte, each byte after a space.
#[derive(Clone, Copy)]
pub struct Hex<'a>(pub &'a [u8]);

impl fmt::Display for Hex<'_> {
    ghost output = { λ h. Some (hexes h.0.now) };

    fn fmt<W: fmt::Write>(&self, f: &mut fmt::Formatter<W>) -> fmt::Result {
        for &b in self.0 {
            // In one piece, since a stream without a buffer takes each piece by itself. A space and digits are UTF-8.
            let text = hex(b);
            let Ok(text) = str::from_utf8(&text) else {
                return Err(fmt::Error);
            };
            f.write_str(text)?;
        }
        Ok(())
    }
}

// A whole line: a name, and the bytes of a packet.
pub fn line<W: Write>(out: &mut W, name: &str, packet: Packet) -> io::Result<()>
    ensures { OnOk result (Appends (W.contents out.old) (W.contents out.new) (name.now ++ hexes (take packet.len packet.bytes) ++ newline)) }
{
    // A length of more than 64 counts as 64, where `as_slice` has no bytes.
    let held = &packet.bytes[..packet.len.min(64)];
    writeln!(out, "{name}{}", Hex(held))
}
