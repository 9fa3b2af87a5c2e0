// A packet on bulk-out and an ask on bulk-in, over the parts of a collector: its identity, and its state, table and the block
// being gathered, which are lent. Each is one equation with the specification machine, for every input.
ghost use Rattle.std.specs.Prelude.{◌*◌, ◌≡◌, List, [], ℕ, eqb};
ghost use Rattle.wire.specs.Choice.{◌and◌};
ghost use Rattle.machine.specs.Units.{block_size, total};
ghost use Rattle.machine.specs.Record.{device};
ghost use Rattle.machine.specs.World.{world, out};
ghost use Rattle.machine.specs.Machine.{told, step, bulk_out, bulk_in};

use crate::inward::packet_in;
use crate::outward::packet_out;
use machine::answer::Answer;
use machine::checks::Checks;
use machine::record::{LogicalUnit, State};
use state::fits::fits;
use state::gate::admit;
use units::table::medium_fits;
use usb::descriptor::Identity;

// Whether a medium of so many bytes fits, beside a record that does. Where the record does not fit, the table may be longer than
// four units, and no more than four are read.
pub(crate) fn medium_beside(fits: bool, units: &[LogicalUnit], length: usize) -> bool
    ensures { result ≡ (fits and eqb length (block_size * total units.now)) }
{
    fits && medium_fits(units, length)
}

// A packet on bulk-out: a wrapper, or data that is stored block by block.
pub fn out_parts(
    identity: Identity,
    state: &mut State,
    units: &mut [LogicalUnit],
    part: &mut [u8; 512],
    medium: &mut [u8],
    packet: &[u8],
) -> Answer
    ensures { told (out result (world (device identity state.new part.new) units.new medium.new) []) ≡ told (step (world (device identity state.old part.old) units.old medium.old) (bulk_out packet.now)) }
{
    let fits = fits(identity, *state, units);
    match admit(Checks {
        fits,
        medium: medium_beside(fits, units, medium.len()),
        packet: packet.len() <= 64,
        configured: state.configured,
        ..Checks::NOTHING
    }) {
        Err(answer) => answer,
        Ok(()) => packet_out(state, units, part, medium, packet),
    }
}

// An ask for a packet on bulk-in: data of the medium or of a reply, or the status wrapper.
pub fn in_parts(
    identity: Identity,
    state: &mut State,
    units: &[LogicalUnit],
    medium: &[u8],
    buffer: &mut [u8],
) -> Answer
    ensures { (p : List ℕ) → told (out result (world (device identity state.new p) units.now medium.now) buffer.new) ≡ told (step (world (device identity state.old p) units.now medium.now) (bulk_in buffer.old)) }
{
    let fits = fits(identity, *state, units);
    match admit(Checks {
        fits,
        medium: medium_beside(fits, units, medium.len()),
        buffer: 64 <= buffer.len(),
        configured: state.configured,
        ..Checks::NOTHING
    }) {
        Err(answer) => answer,
        Ok(()) => packet_in(identity, state, units, medium, buffer),
    }
}
