// The command of an accepted wrapper begins: its plan and the announced length decide sense, halts and stage.
ghost use Rattle.std.specs.Prelude.{true, ◌≡◌};
ghost use Rattle.machine.specs.Begin.{host_of, has_of, sense_of, own_status, reply_of, data_stage, sensed, staged};
ghost use Rattle.begin.specs.InRange.{is_in_range, halts, begun_in_range};

use bot::cbw::Header;
use bot::csw::Status;
use cases::{Ending, Halt, Pipe, Transfer, case_of};
use machine::record::{LogicalUnit, MOST_BLOCKS, Stage, State, Task};
use machine::wrapper::Wrapper;
use scsi::command::Plan;
use scsi::reply::{Reply, ReplyKind};
use scsi::sense::Sense;
use state::states::moved;
use units::unit::{is_protected, with_sense};

fn host_of(header: Header) -> Transfer
    ensures { result ≡ host_of header }
{
    if header.inward {
        Transfer::In(header.announced)
    } else {
        Transfer::Out(header.announced)
    }
}

#[tactic(auto, unfolding(machine::specs::Begin::has_of))]
fn has_of(plan: Plan) -> Transfer
    ensures { result ≡ has_of plan }
{
    match plan {
        Plan::Failed(_) | Plan::Nothing => Transfer::None,
        Plan::Reply { kind: _, size } => Transfer::In(size as u32),
        Plan::Read { block: _, count } => Transfer::In(512 * (count as u32)),
        Plan::Write { block: _, count } => Transfer::Out(512 * (count as u32)),
    }
}

// The sense that a command leaves: none, if it passed.
#[tactic(auto, unfolding(machine::specs::Begin::sense_of))]
fn sense_of(plan: Plan) -> Sense
    ensures { result ≡ sense_of plan }
{
    match plan {
        Plan::Failed(sense) => sense,
        _ => Sense::NONE,
    }
}

#[tactic(auto, unfolding(machine::specs::Begin::own_status))]
fn own_status(plan: Plan) -> Status
    ensures { result ≡ own_status plan }
{
    match plan {
        Plan::Failed(_) => Status::Failed,
        _ => Status::Passed,
    }
}

// A reply has the values found at the wrapper: Request Sense sends the sense that it found, Mode Sense the position of
// the switch.
#[tactic(auto, unfolding(machine::specs::Begin::reply_of))]
fn reply_of(kind: ReplyKind, unit: LogicalUnit) -> Reply
    ensures { result ≡ reply_of kind unit }
{
    match kind {
        ReplyKind::Sense => Reply::Sense(unit.sense),
        ReplyKind::Inquiry => Reply::Inquiry,
        ReplyKind::Page(page) => Reply::Page(page),
        ReplyKind::ModeSense => Reply::ModeSense {
            protected: is_protected(unit),
        },
        ReplyKind::Capacity => Reply::Capacity {
            blocks: unit.blocks,
        },
    }
}

#[tactic(auto, unfolding(machine::specs::Begin::data_stage))]
fn data_stage(plan: Plan, unit: LogicalUnit) -> Stage
    requires { is_in_range plan ≡ true }
    ensures { result ≡ data_stage plan unit }
{
    match plan {
        Plan::Failed(_) => Stage::StatusDue {
            status: Status::Failed,
        },
        Plan::Nothing => Stage::StatusDue {
            status: Status::Passed,
        },
        Plan::Reply { kind, size } => Stage::ReplyIn {
            reply: reply_of(kind, unit),
            place: 0,
            left: size as u32,
        },
        Plan::Read { block, count } => Stage::DataIn {
            place: 512 * block,
            left: 512 * (count as u32),
        },
        Plan::Write { block, count } => Stage::DataOut {
            block,
            left: count as u32,
            held: 0,
        },
    }
}

// The status is due at once where no data moves, and after a phase error.
#[tactic(auto, unfolding(machine::specs::Begin::staged, machine::specs::Begin::first_stage))]
fn staged(ending: Ending, moves: Transfer, plan: Plan, unit: LogicalUnit) -> Stage
    requires { is_in_range plan ≡ true }
    ensures { result ≡ staged ending moves plan unit }
{
    match (ending, moves) {
        (Ending::PhaseError, _) => Stage::StatusDue {
            status: Status::PhaseError,
        },
        (Ending::Command, Transfer::None) => Stage::StatusDue {
            status: own_status(plan),
        },
        (Ending::Command, _) => data_stage(plan, unit),
    }
}

// A pipe that is halted at once, or was so before; a halt after data waits for the data's end.
#[tactic(auto, unfolding(machine::specs::Begin::halts_in, machine::specs::Begin::halts_out))]
fn halts(pipe: Pipe, halt: Halt, before: bool) -> bool
    ensures { result ≡ halts pipe halt before }
{
    halt == Halt::AtOnce(pipe) || before
}

// A phase error found at the wrapper leaves the sense.
#[tactic(auto, unfolding(machine::specs::Begin::sensed))]
fn sensed(ending: Ending, plan: Plan, found: Sense) -> Sense
    ensures { result ≡ sensed ending plan found }
{
    match ending {
        Ending::Command => sense_of(plan),
        Ending::PhaseError => found,
    }
}

#[tactic(auto, unfolding(crate::specs::InRange::is_in_range))]
fn is_in_range(plan: Plan) -> bool
    ensures { result ≡ is_in_range plan }
{
    match plan {
        Plan::Read { block, count: _ } => block <= MOST_BLOCKS,
        _ => true,
    }
}

// What the command begins with.
#[derive(Clone, Copy)]
pub struct Begun {
    pub state: State,
    pub unit: LogicalUnit,
}

// State and unit once the command is accepted. No unit has a plan that is not in range; one leaves both as they were.
pub fn begin(wrapper: Wrapper, state: State, unit: LogicalUnit) -> Begun
    ensures { result ≡ begun_in_range wrapper.header wrapper.plan state unit }
{
    let Wrapper { header, plan } = wrapper;
    if !is_in_range(plan) {
        return Begun { state, unit };
    }
    let case = case_of(host_of(header), has_of(plan));
    let task = Task {
        stage: staged(case.ending, case.moves, plan, unit),
        lun: header.lun,
        tag: header.tag,
        announced: header.announced,
        residue: header.announced,
    };
    let haltin = halts(Pipe::In, case.halt, state.link.haltin);
    let haltout = halts(Pipe::Out, case.halt, state.link.haltout);
    Begun {
        state: moved(state, haltin, haltout, task),
        unit: with_sense(unit, sensed(case.ending, plan, unit.sense)),
    }
}
