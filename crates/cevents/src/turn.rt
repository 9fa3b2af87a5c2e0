// The events on the record as C holds it: decoded, done by `control`, `bulk` or `collector`, encoded. The commonest events go a shorter way.
ghost use Rattle.std.specs.Prelude.{◌≡◌, true, false, List, [], ℕ};
ghost use Rattle.machine.specs.Machine.{bus_reset, bulk_out, bulk_in, set_switch};
ghost use Rattle.machine.specs.Machine as machines;
ghost use Rattle.machine.specs.Units.{Table};
ghost use Rattle.machine.specs.World.{world};
ghost use Rattle.crecord.specs.Flat.{decodes, identity_from, answer, record_of};
ghost use Rattle.cevents.specs.Events.{left, on_record, left_made, on_making};
ghost use Rattle.cevents.specs.Decoded.{Ran};

use crate::packets::{quick_in, quick_out};
use crate::place::place_in;
use bulk::parts::{in_parts, out_parts};
use collector::making::{make, no_device};
use collector::switch::switch_parts;
use control::parts::{control_parts, reset_parts};
use crecord::decode::decode;
use crecord::record::{Flat, Given, Record, Told};
use machine::answer::{Answer, Refusal};
use machine::record::{Device, LogicalUnit, State};
use usb::descriptor::Identity;

// The answer to numbers that stand for no record.
pub(crate) fn refused() -> Told
    ensures { result ≡ answer 10 0 }
{
    Told::from(Answer::Refused {
        why: Refusal::Record,
    })
}

// A record of a device. No From, which would stand in `crecord`: its conversions are of a record's parts.
fn record_of(device: Device) -> Record
    ensures { (us : Table) (m : List ℕ) → result ≡ record_of (world device us m) }
{
    let part = device.part;
    Record {
        given: Given::from(device.identity),
        flat: Flat::from(device.state),
        part,
    }
}

// Makes a collector; a refused making leaves a record of zeros.
pub fn turn_make(held: &mut Record, given: Given, units: &mut [LogicalUnit], medium: &[u8]) -> Told
    ensures { left_made result held.new units.new ≡ on_making (identity_from given) units.old medium.now }
{
    let identity = Identity::from(given);
    match make(identity, units, medium) {
        Ok(device) => {
            *held = record_of(device);
            Told::from(Answer::Ack)
        }
        Err(why) => {
            *held = record_of(no_device());
            Told::from(Answer::Refused { why })
        }
    }
}

// One event on the record: decoded, done, encoded. Numbers that stand for no record are left as they were.
fn decoded<F: FnMut(Identity, &mut State, &mut [u8; 512]) -> Answer>(
    held: &mut Record,
    event: &mut F,
) -> Told
    requires { F.IsAlwaysCallable event.old }
    ensures refused { decodes held.old.flat ≡ false → (result ≡ answer 10 0) × (held.new ≡ held.old) × (event.new ≡ event.old) }
    ensures ran { decodes held.old.flat ≡ true → Ran (λ i s p a t q. F.step event.old i s p a t q event.new) held.old result held.new }
{
    let Some(mut state) = decode(held.flat) else {
        return refused();
    };
    let identity = Identity::from(held.given);
    let answer = event(identity, &mut state, &mut held.part);
    held.flat = Flat::from(state);
    Told::from(answer)
}

pub fn turn_reset(held: &mut Record, units: &mut [LogicalUnit]) -> Told
    ensures { (m : List ℕ) → left result held.new units.new m [] ≡ on_record held.old units.old m bus_reset }
{
    decoded(
        held,
        &mut |identity, state, part| reset_parts(identity, state, units, part),
    )
}

// A switch is set: it changes no record.
pub fn turn_switch(held: &Record, units: &mut [LogicalUnit], position: u8, lun: u8) -> Told
    ensures { (m : List ℕ) → left result held.now units.new m [] ≡ on_record held.now units.old m (set_switch position lun) }
{
    let Some(state) = decode(held.flat) else {
        return refused();
    };
    let identity = Identity::from(held.given);
    Told::from(switch_parts(identity, state, units, position, lun))
}

// It does not go by `decoded`: a request that is answered with data changes no record, so its numbers are not encoded.
pub fn turn_control(
    held: &mut Record,
    units: &mut [LogicalUnit],
    setup: &[u8],
    buffer: &mut [u8],
) -> Told
    ensures { (m : List ℕ) → left result held.new units.new m buffer.new ≡ on_record held.old units.old m (machines.control setup.now buffer.old) }
{
    let Some(mut state) = decode(held.flat) else {
        return refused();
    };
    let identity = Identity::from(held.given);
    let answer = control_parts(identity, &mut state, units, &mut held.part, setup, buffer);
    let told = Told::from(answer);
    let data = matches!(answer, Answer::Data { .. });
    if !data {
        held.flat = Flat::from(state);
    }
    told
}

// Any packet on bulk-out.
fn any_out(held: &mut Record, units: &mut [LogicalUnit], medium: &mut [u8], packet: &[u8]) -> Told
    ensures { left result held.new units.new medium.new [] ≡ on_record held.old units.old medium.old (bulk_out packet.now) }
{
    decoded(
        held,
        &mut |identity, state, part| out_parts(identity, state, units, part, medium, packet),
    )
}

// Any ask on bulk-in.
fn any_in(held: &mut Record, units: &[LogicalUnit], medium: &[u8], buffer: &mut [u8]) -> Told
    ensures { left result held.new units.now medium.now buffer.new ≡ on_record held.old units.now medium.now (bulk_in buffer.old) }
{
    decoded(
        held,
        &mut |identity, state, _| in_parts(identity, state, units, medium, buffer),
    )
}

// A packet on bulk-out: a wrapper, or data that is stored block by block.
pub fn turn_out(
    held: &mut Record,
    units: &mut [LogicalUnit],
    medium: &mut [u8],
    packet: &[u8],
) -> Told
    ensures { left result held.new units.new medium.new [] ≡ on_record held.old units.old medium.old (bulk_out packet.now) }
{
    if let Some(place) = place_in(units, held.flat.lun, medium.len()) {
        if let Some(told) = quick_out(held, place, medium, packet) {
            return told;
        }
    }
    any_out(held, units, medium, packet)
}

// An ask for a packet on bulk-in: data of the medium or of a reply, or the status wrapper. It changes no unit.
pub fn turn_in(held: &mut Record, units: &[LogicalUnit], medium: &[u8], buffer: &mut [u8]) -> Told
    ensures { left result held.new units.now medium.now buffer.new ≡ on_record held.old units.now medium.now (bulk_in buffer.old) }
{
    if let Some(place) = place_in(units, held.flat.lun, medium.len()) {
        if let Some(told) = quick_in(held, place, medium, buffer) {
            return told;
        }
    }
    any_in(held, units, medium, buffer)
}
