// Setting a unit's write switch, the event that does not come over the bus: it is lent neither medium nor buffer, and drops
// nothing. It is one equation with the specification machine, for every input.
ghost use Rattle.std.specs.Prelude.{◌≡◌, List, [], ℕ};
ghost use Rattle.wire.specs.Choice.{◌and◌};
ghost use Rattle.machine.specs.Units.{switch_fits};
ghost use Rattle.machine.specs.Fits.{fits};
ghost use Rattle.machine.specs.Record.{device};
ghost use Rattle.machine.specs.World.{world, out};
ghost use Rattle.machine.specs.Machine.{told, step, set_switch};

use machine::answer::Answer;
use machine::checks::Checks;
use machine::record::{LogicalUnit, State};
use state::fits::fits;
use state::gate::admit;
use units::change::set_switch;
use units::unit::switch_fits;
use usb::descriptor::Identity;

// The record with its table, and the event's position: either, if it does not fit, is number 10.
fn both_fit(identity: Identity, state: State, units: &[LogicalUnit], position: u8) -> bool
    ensures { result ≡ (fits identity state units.now and switch_fits position) }
{
    fits(identity, state, units) && switch_fits(position)
}

// Only the unit's switch changes; a command in hand goes on as it began.
pub fn switch_parts(
    identity: Identity,
    state: State,
    units: &mut [LogicalUnit],
    position: u8,
    lun: u8,
) -> Answer
    ensures { (p m : List ℕ) → told (out result (world (device identity state p) units.new m) []) ≡ told (step (world (device identity state p) units.old m) (set_switch position lun)) }
{
    match admit(Checks {
        fits: both_fit(identity, state, units, position),
        unit: (lun as usize) < units.len(),
        ..Checks::NOTHING
    }) {
        Err(answer) => answer,
        Ok(()) => {
            set_switch(units, lun, position);
            Answer::Ack
        }
    }
}
