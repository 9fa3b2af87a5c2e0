// Bus reset and a control request over the parts of a collector: its identity, and its state, table and the block being
// gathered, which are lent. Each is one equation with the specification machine, for every input. The parts come one by one:
// C's record has a block and no state, so that a struct of them would hold a `&mut`, and each clause would have to follow it.
ghost use Rattle.std.specs.Prelude.{◌≡◌, List, [], ℕ};
ghost use Rattle.machine.specs.Record.{device};
ghost use Rattle.machine.specs.World.{world, out};
ghost use Rattle.machine.specs.Machine.{told, step, bus_reset, control};

use crate::requests::{drop_command, perform};
use machine::answer::Answer;
use machine::checks::Checks;
use machine::record::{LogicalUnit, State};
use state::fits::fits;
use state::gate::admit;
use state::states::dropped_state;
use usb::descriptor::Identity;
use usb::request::request_of;

// Drops the command, and clears halts, address and configuration.
pub fn reset_parts(
    identity: Identity,
    state: &mut State,
    units: &mut [LogicalUnit],
    part: &mut [u8; 512],
) -> Answer
    ensures { (m : List ℕ) → told (out result (world (device identity state.new part.new) units.new m) []) ≡ told (step (world (device identity state.old part.old) units.old m) bus_reset) }
{
    match admit(Checks {
        fits: fits(identity, *state, units),
        ..Checks::NOTHING
    }) {
        Err(answer) => answer,
        Ok(()) => { drop_command(dropped_state(0, false, false, false), state, units, part) }
    }
}

// A control request; the buffer is there also for a request that sends nothing.
pub fn control_parts(
    identity: Identity,
    state: &mut State,
    units: &mut [LogicalUnit],
    part: &mut [u8; 512],
    setup: &[u8],
    buffer: &mut [u8],
) -> Answer
    ensures { (m : List ℕ) → told (out result (world (device identity state.new part.new) units.new m) buffer.new) ≡ told (step (world (device identity state.old part.old) units.old m) (control setup.now buffer.old)) }
{
    match admit(Checks {
        fits: fits(identity, *state, units),
        buffer: 64 <= buffer.len(),
        setup: setup.len() == 8,
        ..Checks::NOTHING
    }) {
        Err(answer) => answer,
        Ok(()) => perform(request_of(setup), identity, state, units, part, buffer),
    }
}
