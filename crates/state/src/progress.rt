// How a command goes on: what the last of its data, a packet of the wrong length and its status leave.
ghost use Rattle.std.specs.Prelude.{◌≡◌};
ghost use Rattle.machine.specs.Bulk.{halt_at_end, next_in, cut_state, after_status};

use crate::states::{locked_state, moved, no_task};
use bot::csw::Status;
use machine::record::{Stage, State, Task};

// The halt that comes with the last of the data, if some of the announced length is left.
pub fn halt_at_end(last: bool, residue: u32, before: bool) -> bool
    ensures { result ≡ halt_at_end last residue before }
{
    last && 0 < residue || before
}

// The status is due after the last packet of data to the host.
pub fn next_in(left: u32, more: Stage) -> Stage
    ensures { result ≡ next_in left more }
{
    if left <= 64 {
        return Stage::StatusDue {
            status: Status::Passed,
        };
    }
    more
}

// Data of another length than 64: the command ends in a phase error. The caller sets the sense.
pub fn cut_state(state: State) -> State
    ensures { result ≡ cut_state state }
{
    let task = Task {
        stage: Stage::StatusDue {
            status: Status::PhaseError,
        },
        ..state.link.task
    };
    moved(state, state.link.haltin, true, task)
}

// After the status a wrapper is due; a phase error locks the device.
pub fn after_status(status: Status, state: State) -> State
    ensures { result ≡ after_status status state }
{
    let next = moved(state, state.link.haltin, state.link.haltout, no_task());
    match status {
        Status::Passed | Status::Failed => next,
        Status::PhaseError => locked_state(next),
    }
}
