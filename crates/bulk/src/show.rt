// A packet shown where it stands: what an ask comes to, without a copy. And the record's reply, which is lent to such a call.
ghost use Rattle.std.specs.Prelude.{◌≡◌, List, ℕ};
ghost use Rattle.wire.specs.Packet.{packet_of};
ghost use Rattle.wire.specs.Slices.{same};
ghost use Rattle.wire.specs.Choice.{◌and◌};
ghost use Rattle.usb.specs.declared.descriptor.Identity as devices;
ghost use Rattle.machine.specs.Fits.{fits};
ghost use Rattle.machine.specs.Record.{device};
ghost use Rattle.machine.specs.World.{world, out};
ghost use Rattle.machine.specs.Machine.{told};
ghost use Rattle.machine.specs.Bulk.{ask};
ghost use Rattle.machine.specs.Show.{record_reply, bytes_shown, shown, show_asked, show, told_shown, give_reply};
ghost use Rattle.bulk.specs.Parts.{Askable};

use crate::ask::ask;
use crate::parts::medium_beside;
use machine::answer::Answer;
use machine::ask::{Asked, Source};
use machine::checks::Checks;
use machine::record::{LogicalUnit, Stage, State};
use machine::show::Extent;
use scsi::reply::reply_bytes;
use state::fits::fits;
use state::gate::admit;
use units::table::unit_at;
use usb::descriptor::Identity;
use wire::packet::{Packet, packet_of};
use wire::slices::{part, put_packet, same};

// What a showing call answers, and where the packet stands.
#[derive(Clone, Copy)]
pub struct Shown {
    pub answer: Answer,
    pub at: Extent,
}

// Nothing is shown.
fn nowhere(answer: Answer) -> Shown
    ensures { result ≡ record { answer = answer; at = Extent.Nowhere } }
{
    Shown {
        answer,
        at: Extent::Nowhere,
    }
}

// The packet itself, a part of what was lent; empty where it stands nowhere.
pub fn packet<'a>(at: Extent, medium: &'a [u8], reply: &'a [u8]) -> &'a [u8]
    ensures { result.now ≡ bytes_shown at medium.now reply.now }
{
    match at {
        Extent::Nowhere => &reply[0..0],
        Extent::Medium { start, count } => part(medium, start, count),
        Extent::Reply { start, count } => part(reply, start, count),
    }
}

// The whole reply of the running command, as its allocation length cut it; empty where none runs.
pub fn record_reply(identity: Identity, state: State) -> Packet
    ensures { result ≡ packet_of (record_reply identity state) }
{
    match state.link.task.stage {
        Stage::ReplyIn { reply, place, left } => {
            let whole = reply_bytes(reply, identity.number);
            let count = (place as usize) + (left as usize);
            let bytes = whole.as_slice();
            packet_of(&bytes[..count.min(bytes.len())])
        }
        _ => Packet::EMPTY,
    }
}

// Whether the lent reply is the record's.
fn is_reply(identity: Identity, state: State, reply: &[u8]) -> bool
    ensures { result ≡ same reply.now (record_reply identity state) }
{
    let own = record_reply(identity, state);
    same(reply, own.as_slice())
}

// Number 10 of a showing call: the record, the table, then the lent reply.
fn fits_reply(identity: Identity, state: State, units: &[LogicalUnit], reply: &[u8]) -> bool
    ensures { result ≡ (fits identity state units.now and same reply.now (record_reply identity state)) }
{
    fits(identity, state, units) && is_reply(identity, state, reply)
}

// Once the checks are passed: data is shown where it stands; a status wrapper stands nowhere, so that the caller asks for it.
fn show_packet(state: &mut State, units: &[LogicalUnit]) -> Shown
    requires { Askable state.old }
    ensures { (i : devices.Identity) (p m : List ℕ) → shown result.answer (world (device i state.new p) units.now m) result.at ≡ show_asked (ask state.old) (world (device i state.old p) units.now m) }
{
    match ask(*state) {
        Asked::Quiet { answer } => nowhere(answer),
        Asked::Packet {
            source,
            state: next,
        } => match source {
            Source::Medium { place, count } => {
                // A place is the unit's own.
                let unit = unit_at(units, state.link.task.lun);
                let start = 512 * (unit.first as usize) + (place as usize);
                let count = count as usize;
                *state = next;
                Shown {
                    answer: Answer::Data { count },
                    at: Extent::Medium { start, count },
                }
            }
            Source::Reply {
                reply: _,
                place,
                count,
            } => {
                let start = place as usize;
                let count = count as usize;
                *state = next;
                Shown {
                    answer: Answer::Data { count },
                    at: Extent::Reply { start, count },
                }
            }
            Source::Status { csw: _ } => nowhere(Answer::Nak),
        },
    }
}

// The next packet of data on bulk-in, shown where it stands.
pub fn show_parts(
    identity: Identity,
    state: &mut State,
    units: &[LogicalUnit],
    medium: &[u8],
    reply: &[u8],
) -> Shown
    ensures { (p : List ℕ) → told_shown (shown result.answer (world (device identity state.new p) units.now medium.now) result.at) ≡ told_shown (show (world (device identity state.old p) units.now medium.now) reply.now) }
{
    let fits = fits_reply(identity, *state, units, reply);
    match admit(Checks {
        fits,
        medium: medium_beside(fits, units, medium.len()),
        configured: state.configured,
        ..Checks::NOTHING
    }) {
        Err(answer) => nowhere(answer),
        Ok(()) => show_packet(state, units),
    }
}

// The record's reply for a caller to lend: put into its buffer.
pub fn reply_parts(
    identity: Identity,
    state: State,
    units: &[LogicalUnit],
    buffer: &mut [u8],
) -> Answer
    ensures { (p m : List ℕ) → told (out result (world (device identity state p) units.now m) buffer.new) ≡ told (give_reply (world (device identity state p) units.now m) buffer.old) }
{
    match admit(Checks {
        fits: fits(identity, state, units),
        buffer: 64 <= buffer.len(),
        ..Checks::NOTHING
    }) {
        Err(answer) => answer,
        Ok(()) => {
            let own = record_reply(identity, state);
            put_packet(buffer, 0, own.as_slice());
            Answer::Data { count: own.len }
        }
    }
}
