// A control request, once its checks are passed (USB 2.0, 9.4; BOT 3).
ghost use Rattle.std.specs.Prelude.{◌≡◌, List, ℕ, Bool, ◌≤◌, length};
ghost use Rattle.usb.specs.declared.descriptor.Identity as identities;
ghost use Rattle.machine.specs.Record.{device, dropped_state};
ghost use Rattle.machine.specs.World.{World, world, in_state, dropped, out};
ghost use Rattle.machine.specs.Control.{perform};

use crate::data::{
    endpoint_status, get_configuration, get_descriptor, get_max_lun, send_configured, send_flag,
};
use crate::halts::set_feature;
use machine::answer::Answer;
use machine::record::{LogicalUnit, State};
use state::states::{dropped_state, wipe};
use units::change::clear;
use usb::descriptor::Identity;
use usb::request::Request;

// A command drop: the part block is zeros, every sense is gone, and the state is ready for a wrapper.
pub(crate) fn drop_command(
    next: State,
    state: &mut State,
    units: &mut [LogicalUnit],
    part: &mut [u8; 512],
) -> Answer
    ensures { (i : identities.Identity) (m b : List ℕ) (a : ℕ) (c hi ho : Bool) → next ≡ dropped_state a c hi ho → out result (world (device i state.new part.new) units.new m) b ≡ out Answer.Ack (dropped (world (device i state.old part.old) units.old m) a c hi ho) b }
{
    *state = next;
    clear(units);
    wipe(part);
    Answer::Ack
}

fn set_address(address: u8, state: &mut State) -> Answer
    ensures { (w : World) (b : List ℕ) → out result (in_state w state.new) b ≡ perform (Request.SetAddress address) (in_state w state.old) b }
{
    if state.configured {
        return Answer::Stall;
    }
    state.address = address;
    Answer::Ack
}

fn set_configuration(
    value: u8,
    state: &mut State,
    units: &mut [LogicalUnit],
    part: &mut [u8; 512],
) -> Answer
    ensures { (i : identities.Identity) (m b : List ℕ) → out result (world (device i state.new part.new) units.new m) b ≡ perform (Request.SetConfiguration value) (world (device i state.old part.old) units.old m) b }
{
    let next = dropped_state(state.address, value == 1, false, false);
    drop_command(next, state, units, part)
}

// The command is dropped; the halts stay.
fn mass_storage_reset(state: &mut State, units: &mut [LogicalUnit], part: &mut [u8; 512]) -> Answer
    ensures { (i : identities.Identity) (m b : List ℕ) → out result (world (device i state.new part.new) units.new m) b ≡ perform Request.MassStorageReset (world (device i state.old part.old) units.old m) b }
{
    if !state.configured {
        return Answer::Stall;
    }
    let link = state.link;
    let next = dropped_state(state.address, true, link.haltin, link.haltout);
    drop_command(next, state, units, part)
}

pub(crate) fn perform(
    request: Request,
    identity: Identity,
    state: &mut State,
    units: &mut [LogicalUnit],
    part: &mut [u8; 512],
    buffer: &mut [u8],
) -> Answer
    requires { length units.old ≤ 4 }
    ensures { (m : List ℕ) → out result (world (device identity state.new part.new) units.new m) buffer.new ≡ perform request (world (device identity state.old part.old) units.old m) buffer.old }
{
    match request {
        Request::SetAddress { address } => set_address(address, state),
        Request::SetConfiguration { value } => set_configuration(value, state, units, part),
        Request::GetConfiguration => get_configuration(*state, buffer),
        Request::GetDeviceStatus => send_flag(true, buffer),
        Request::GetInterfaceStatus => send_configured(false, *state, buffer),
        Request::GetEndpointStatus { endpoint } => endpoint_status(endpoint, *state, buffer),
        Request::ClearHalt { endpoint } => set_feature(false, endpoint, state),
        Request::SetHalt { endpoint } => set_feature(true, endpoint, state),
        Request::MassStorageReset => mass_storage_reset(state, units, part),
        Request::GetMaxLun => get_max_lun(units, *state, buffer),
        Request::GetDescriptor { which, wlength } => {
            get_descriptor(which, wlength, identity, buffer)
        }
        Request::Stall => Answer::Stall,
    }
}
