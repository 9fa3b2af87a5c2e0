// One event of a recording is run on the collector, and its line is written. The buffer that an event is lent is of zeros.
ghost use Rattle.std.specs.Prelude.{◌≡◌, ◌+◌, ◌≤◌, length};
ghost use Rattle.machine.specs.World.{world};
ghost use Rattle.machine.specs.Machine.{step};
ghost use Rattle.recording.specs.Format.{event_of};
ghost use Rattle.player.specs.Turns.{Turned};

use bulk::parts::{in_parts, out_parts};
use collector::switch::switch_parts;
use control::parts::{control_parts, reset_parts};
use machine::record::{Device, LogicalUnit};
use printout::print::Text;
use recording::cursor::Kind;
use wire::slices::byte;

// The event of a kind and a body, with the line of its number.
pub(crate) fn play_one(
    device: &mut Device,
    units: &mut [LogicalUnit],
    medium: &mut [u8],
    kind: Kind,
    body: &[u8],
    number: usize,
    text: &mut Text<'_>,
)
    requires { text.old.at + 207 ≤ length text.old.buffer.now }
    ensures same { text.new.buffer.ghost_name ≡ text.old.buffer.ghost_name }
    ensures turned { Turned (step (world device.old units.old medium.old) (event_of kind body.now)) number text.old.buffer.now text.old.at text.new.buffer.now text.new.at (world device.new units.new medium.new) }
{
    match kind {
        Kind::Reset => {
            let answer = reset_parts(device.identity, &mut device.state, units, &mut device.part);
            text.line(number, answer, &[]);
        }
        Kind::Control => {
            let mut buffer = [0; 64];
            let answer = control_parts(
                device.identity,
                &mut device.state,
                units,
                &mut device.part,
                body,
                &mut buffer,
            );
            text.line(number, answer, &buffer);
        }
        Kind::Out => {
            let answer = out_parts(
                device.identity,
                &mut device.state,
                units,
                &mut device.part,
                medium,
                body,
            );
            text.line(number, answer, &[]);
        }
        Kind::Ask => {
            let mut buffer = [0; 64];
            let answer = in_parts(
                device.identity,
                &mut device.state,
                units,
                medium,
                &mut buffer,
            );
            text.line(number, answer, &buffer);
        }
        Kind::Switch => {
            let answer = switch_parts(
                device.identity,
                device.state,
                units,
                byte(body, 0),
                byte(body, 1),
            );
            text.line(number, answer, &[]);
        }
    }
}
