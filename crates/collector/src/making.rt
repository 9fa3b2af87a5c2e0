// Making a collector over a lent table and medium: one equation with the specification machine, for every input.
ghost use Rattle.std.specs.Prelude.{◌≡◌};
ghost use Rattle.machine.specs.Making.{told_made};
ghost use Rattle.machine.specs.Making as making;
ghost use Rattle.machine.specs.Record.{fresh, no_device};
ghost use Rattle.collector.specs.Made.{left};

use machine::answer::Refusal;
use machine::record::{Device, LogicalUnit};
use state::fits::number_fits;
use state::states::dropped_state;
use units::change::make_unused;
use units::table::{laid_out, medium_fits};
use usb::descriptor::Identity;

// A collector as made.
fn fresh(identity: Identity) -> Device
    ensures { result ≡ fresh identity }
{
    Device {
        identity,
        state: dropped_state(0, false, false, false),
        part: [0; 512],
    }
}

// No device: all its numbers are zero.
pub fn no_device() -> Device
    ensures { result ≡ no_device }
{
    fresh(Identity {
        number: 0,
        vendor: 0,
        product: 0,
        release: 0,
    })
}

// The table is checked first, then the medium, then the number; a refusal keeps the table. Once made, every sense is zero and
// every switch open.
pub fn make(identity: Identity, units: &mut [LogicalUnit], medium: &[u8]) -> Result<Device, Refusal>
    ensures { told_made (left result units.new) ≡ told_made (making.make identity units.old medium.now) }
{
    if !laid_out(units) {
        return Err(Refusal::Record);
    }
    if !medium_fits(units, medium.len()) {
        return Err(Refusal::Medium);
    }
    if !number_fits(identity.number) {
        return Err(Refusal::Number);
    }
    make_unused(units);
    Ok(fresh(identity))
}
