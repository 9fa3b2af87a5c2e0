// The states that events leave, and the block being gathered where none is.
ghost use Rattle.std.specs.Prelude.{◌≡◌};
ghost use Rattle.wire.specs.Slices.{zeros};
ghost use Rattle.machine.specs.Record.{no_task, moved, with_halts, with_address, dropped_state};
ghost use Rattle.machine.specs.Bulk.{locked_state};

use machine::record::{Link, Stage, State, Task};

pub fn no_task() -> Task
    ensures { result ≡ no_task }
{
    Task {
        stage: Stage::Ready,
        lun: 0,
        tag: 0,
        announced: 0,
        residue: 0,
    }
}

// Within a command: halts and task change.
pub fn moved(state: State, haltin: bool, haltout: bool, task: Task) -> State
    ensures { result ≡ moved state haltin haltout task }
{
    let link = Link {
        haltin,
        haltout,
        task,
        ..state.link
    };
    State { link, ..state }
}

pub fn with_halts(state: State, haltin: bool, haltout: bool, locked: bool) -> State
    ensures { result ≡ with_halts state haltin haltout locked }
{
    let link = Link {
        haltin,
        haltout,
        locked,
        ..state.link
    };
    State { link, ..state }
}

pub fn with_address(state: State, address: u8) -> State
    ensures { result ≡ with_address state address }
{
    State { address, ..state }
}

// "Dropping the command": ready for a wrapper, lock ended. The caller wipes the part block and clears the senses.
pub fn dropped_state(address: u8, configured: bool, haltin: bool, haltout: bool) -> State
    ensures { result ≡ dropped_state address configured haltin haltout }
{
    State {
        address,
        configured,
        link: Link {
            haltin,
            haltout,
            locked: false,
            task: no_task(),
        },
    }
}

// A broken wrapper, or a handed-out phase error, halts both pipes until the command is dropped.
pub fn locked_state(state: State) -> State
    ensures { result ≡ locked_state state }
{
    with_halts(state, true, true, true)
}

pub fn wipe(part: &mut [u8; 512])
    ensures { part.new ≡ zeros 512 }
{
    *part = [0; 512];
}
