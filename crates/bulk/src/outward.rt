// A bulk-out packet, once its checks are passed: a wrapper, or data for the block being gathered.
ghost use Rattle.std.specs.Prelude.{◌≡◌, true, List, [], ℕ, ◌≤◌};
ghost use Rattle.usb.specs.declared.descriptor.Identity.{Identity};
ghost use Rattle.machine.specs.Units.{most_blocks, laid_out};
ghost use Rattle.machine.specs.Record.{device};
ghost use Rattle.machine.specs.World.{world, out, unit_out, in_unit};
ghost use Rattle.machine.specs.Wrapper.{wrapper_of};
ghost use Rattle.machine.specs.Bulk.{on_wrapper, next_out, on_data, packet_out, gathered_state, stored_state};
ghost use Rattle.bulk.specs.Parts.{Sound, Due, Gathering};

use begin::command::begin;
use begin::wrapper::read_wrapper;
use bot::csw::Status;
use machine::answer::Answer;
use machine::record::{LogicalUnit, Stage, State, Task};
use scsi::sense::Sense;
use state::progress::{cut_state, halt_at_end};
use state::states::{locked_state, moved, wipe};
use units::change::{put_sense, set_sense};
use units::table::unit_at;
use wire::slices::{put, put_packet};

// A broken wrapper locks the device; an accepted one sets its unit's sense.
fn on_wrapper(state: &mut State, units: &mut [LogicalUnit], packet: &[u8]) -> Answer
    requires { laid_out units.old ≡ true }
    ensures { (i : Identity) (p m : List ℕ) → out result (world (device i state.new p) units.new m) [] ≡ on_wrapper (wrapper_of units.old packet.now) (world (device i state.old p) units.old m) }
{
    let Some(wrapper) = read_wrapper(packet, units) else {
        *state = locked_state(*state);
        return Answer::Stall;
    };
    let lun = wrapper.header.lun;
    let begun = begin(wrapper, *state, unit_at(units, lun));
    *state = begun.state;
    set_sense(units, lun, begun.unit.sense);
    Answer::Ack
}

fn gathered_state(state: State, block: u32, left: u32, held: u32) -> State
    requires { held ≤ 448 }
    ensures { result ≡ gathered_state state block left held }
{
    let task = Task {
        stage: Stage::DataOut {
            block,
            left,
            held: held + 64,
        },
        ..state.link.task
    };
    moved(state, state.link.haltin, state.link.haltout, task)
}

fn next_out(block: u32, left: u32) -> Stage
    requires { block ≤ most_blocks }
    ensures { result ≡ next_out block left }
{
    if left <= 1 {
        return Stage::StatusDue {
            status: Status::Passed,
        };
    }
    Stage::DataOut {
        block: block + 1,
        left: left - 1,
        held: 0,
    }
}

fn stored_state(state: State, block: u32, left: u32) -> State
    requires { (block ≤ most_blocks) × (512 ≤ state.link.task.residue) }
    ensures { result ≡ stored_state state block left }
{
    let residue = state.link.task.residue - 512;
    let haltout = halt_at_end(left <= 1, residue, state.link.haltout);
    let task = Task {
        stage: next_out(block, left),
        residue,
        ..state.link.task
    };
    moved(state, state.link.haltin, haltout, task)
}

// Data for the block being gathered; a whole block is stored at its place in the unit's part of the medium. A packet whose
// length is not 64 ends the command. `block`, `left` and `held` are the fields of the stage: a second struct of the three would
// say no more.
fn on_data(
    state: &mut State,
    unit: &mut LogicalUnit,
    block: u32,
    left: u32,
    held: u32,
    part: &mut [u8; 512],
    medium: &mut [u8],
    packet: &[u8],
) -> Answer
    requires { Gathering state.old block left held medium.old }
    ensures { (i : Identity) → unit_out result (device i state.new part.new) unit.new medium.new ≡ on_data block left held packet.now (device i state.old part.old) unit.old medium.old }
{
    if packet.len() != 64 {
        wipe(part);
        *state = cut_state(*state);
        put_sense(unit, Sense::DATA_PHASE);
        return Answer::Ack;
    }
    put_packet(part, held as usize, packet);
    if held + 64 < 512 {
        *state = gathered_state(*state, block, left, held);
        return Answer::Ack;
    }
    // The block's place is lent, not the medium: the copy then has no bound to test.
    let start = 512 * (block as usize);
    let end = start + 512;
    put(&mut medium[start..end], 0, part);
    wipe(part);
    *state = stored_state(*state, block, left);
    Answer::Ack
}

// Data for the unit of the command in hand, which has its own part of the medium.
fn to_unit(
    state: &mut State,
    units: &mut [LogicalUnit],
    block: u32,
    left: u32,
    held: u32,
    part: &mut [u8; 512],
    medium: &mut [u8],
    packet: &[u8],
) -> Answer
    requires { Due state.old units.old block left held medium.old }
    ensures { (i : Identity) → out result (world (device i state.new part.new) units.new medium.new) [] ≡ in_unit (world (device i state.old part.old) units.old medium.old) state.old.link.task.lun (on_data block left held packet.now) }
{
    let unit = &mut units[state.link.task.lun as usize];
    let start = 512 * (unit.first as usize);
    let end = start + 512 * (unit.blocks as usize);
    on_data(
        state,
        unit,
        block,
        left,
        held,
        part,
        &mut medium[start..end],
        packet,
    )
}

pub(crate) fn packet_out(
    state: &mut State,
    units: &mut [LogicalUnit],
    part: &mut [u8; 512],
    medium: &mut [u8],
    packet: &[u8],
) -> Answer
    requires { Sound state.old units.old medium.old }
    ensures { (i : Identity) → out result (world (device i state.new part.new) units.new medium.new) [] ≡ packet_out (world (device i state.old part.old) units.old medium.old) packet.now }
{
    if state.link.haltout {
        return Answer::Stall;
    }
    match state.link.task.stage {
        Stage::DataOut { block, left, held } => {
            if left == 0 {
                return Answer::Nak;
            }
            to_unit(state, units, block, left, held, part, medium, packet)
        }
        Stage::Ready => on_wrapper(state, units, packet),
        Stage::DataIn { .. } | Stage::ReplyIn { .. } | Stage::StatusDue { .. } => Answer::Nak,
    }
}
