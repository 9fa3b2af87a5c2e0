// Requests that send data: status, configuration, largest unit number, descriptors (USB 2.0, 9.4; BOT 3.2). None changes the state.
ghost use Rattle.std.specs.Prelude.{◌≡◌, List, ℕ, ◌-◌, ◌≤◌, length};
ghost use Rattle.machine.specs.declared.record.State.{State};
ghost use Rattle.machine.specs.Record.{device};
ghost use Rattle.machine.specs.World.{World, world, in_state, out, sends};
ghost use Rattle.machine.specs.Units.{Table};
ghost use Rattle.machine.specs.Control.{flag, needs_configured, endpoint_status, perform};

use machine::answer::Answer;
use machine::record::{LogicalUnit, State};
use usb::descriptor::{Descriptor, Identity, descriptor_bytes};
use usb::request::{Endpoint, Request};
use wire::slices::put;

// The bytes into the buffer.
fn send(bytes: &[u8], buffer: &mut [u8]) -> Answer
    ensures { (w : World) → out result w buffer.new ≡ sends bytes.now w buffer.old }
{
    put(buffer, 0, bytes);
    Answer::Data { count: bytes.len() }
}

// A flag as the two bytes of a status.
fn flag(on: bool) -> [u8; 2]
    ensures { result ≡ flag on }
{
    if on { [0x01, 0x00] } else { [0x00, 0x00] }
}

pub(crate) fn send_flag(on: bool, buffer: &mut [u8]) -> Answer
    ensures { (w : World) → out result w buffer.new ≡ sends (flag on) w buffer.old }
{
    send(&flag(on), buffer)
}

// The same where the device must be configured: else a stall.
pub(crate) fn send_configured(on: bool, state: State, buffer: &mut [u8]) -> Answer
    ensures { (w : World) → out result (in_state w state) buffer.new ≡ needs_configured (in_state w state) buffer.old (sends (flag on) (in_state w state) buffer.old) }
{
    if !state.configured {
        return Answer::Stall;
    }
    send_flag(on, buffer)
}

pub(crate) fn endpoint_status(endpoint: Endpoint, state: State, buffer: &mut [u8]) -> Answer
    ensures { (w : World) → out result (in_state w state) buffer.new ≡ endpoint_status endpoint (in_state w state) buffer.old }
{
    match endpoint {
        Endpoint::Control => send_flag(false, buffer),
        Endpoint::BulkIn => send_configured(state.link.haltin, state, buffer),
        Endpoint::BulkOut => send_configured(state.link.haltout, state, buffer),
    }
}

pub(crate) fn get_configuration(state: State, buffer: &mut [u8]) -> Answer
    ensures { (w : World) → out result (in_state w state) buffer.new ≡ perform Request.GetConfiguration (in_state w state) buffer.old }
{
    if state.configured {
        send(&[0x01], buffer)
    } else {
        send(&[0x00], buffer)
    }
}

// The highest unit's number. That there are no more than four was checked by `control_parts`; in more it would not be a byte.
pub(crate) fn get_max_lun(units: &[LogicalUnit], state: State, buffer: &mut [u8]) -> Answer
    requires { length units.now ≤ 4 }
    ensures { (w : World) → w.units ≡ units.now → out result (in_state w state) buffer.new ≡ perform Request.GetMaxLun (in_state w state) buffer.old }
{
    if !state.configured {
        return Answer::Stall;
    }
    let highest = units.len().saturating_sub(1) as u8;
    send(&[highest], buffer)
}

pub(crate) fn get_descriptor(
    which: Descriptor,
    wlength: u16,
    identity: Identity,
    buffer: &mut [u8],
) -> Answer
    ensures { (s : State) (p m : List ℕ) (us : Table) → out result (world (device identity s p) us m) buffer.new ≡ perform (Request.GetDescriptor which wlength) (world (device identity s p) us m) buffer.old }
{
    let packet = descriptor_bytes(which, identity);
    let bytes = packet.as_slice();
    send(&bytes[..bytes.len().min(wlength as usize)], buffer)
}
