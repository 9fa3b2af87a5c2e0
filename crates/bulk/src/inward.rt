// An ask for a bulk-in packet, once its checks are passed: the bytes that are due are put into the buffer.
ghost use Rattle.std.specs.Prelude.{◌≡◌, List, ℕ, ◌+◌, ◌≤◌, length};
ghost use Rattle.wire.specs.Slices.{placed};
ghost use Rattle.machine.specs.Record.{device};
ghost use Rattle.machine.specs.World.{world, out};
ghost use Rattle.machine.specs.Bulk.{packet_in};
ghost use Rattle.bulk.specs.Parts.{Sound, between};

use crate::ask::ask;
use bot::csw::csw_bytes;
use machine::answer::Answer;
use machine::ask::{Asked, Source};
use machine::record::{LogicalUnit, State};
use scsi::reply::reply_bytes;
use units::table::unit_at;
use usb::descriptor::Identity;
use wire::slices::{put, put_packet};

// Copies `count` bytes of a source, from `start` on, and answers with them. A start and a count, as the machine says them.
fn hand_out(source: &[u8], start: usize, count: u32, buffer: &mut [u8]) -> Answer
    requires { start + count ≤ length source.now }
    ensures { (result ≡ Answer.Data count) × (buffer.new ≡ placed buffer.old 0 (between start (start + count) source.now)) }
{
    let count = count as usize;
    put_packet(buffer, 0, &source[start..start + count]);
    Answer::Data { count }
}

// The identity is there for the product pages, which carry the collector number.
pub(crate) fn packet_in(
    identity: Identity,
    state: &mut State,
    units: &[LogicalUnit],
    medium: &[u8],
    buffer: &mut [u8],
) -> Answer
    requires { Sound state.old units.now medium.now }
    ensures { (p : List ℕ) → out result (world (device identity state.new p) units.now medium.now) buffer.new ≡ packet_in (world (device identity state.old p) units.now medium.now) buffer.old }
{
    match ask(*state) {
        Asked::Quiet { answer } => answer,
        Asked::Packet {
            source,
            state: next,
        } => {
            let unit = unit_at(units, state.link.task.lun);
            *state = next;
            match source {
                // A place is the unit's own.
                Source::Medium { place, count } => hand_out(
                    medium,
                    512 * (unit.first as usize) + (place as usize),
                    count,
                    buffer,
                ),
                Source::Reply {
                    reply,
                    place,
                    count,
                } => {
                    let packet = reply_bytes(reply, identity.number);
                    hand_out(packet.as_slice(), place as usize, count, buffer)
                }
                Source::Status { csw } => {
                    put(buffer, 0, &csw_bytes(csw));
                    Answer::Data { count: 13 }
                }
            }
        }
    }
}
