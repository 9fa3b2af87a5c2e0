// What an ask for a bulk-in packet comes to, once its checks are passed: data of the medium or of a reply, or the status
// wrapper, and the state that follows. No byte is moved here.
ghost use Rattle.std.specs.Prelude.{◌≡◌, ◌-◌, ◌≤◌, min};
ghost use Rattle.machine.specs.Bulk.{handed_state, next_packet, ask};
ghost use Rattle.bulk.specs.Parts.{Askable};

use bot::csw::Csw;
use machine::answer::Answer;
use machine::ask::{Asked, Source};
use machine::record::{Stage, State, Task};
use state::progress::{after_status, halt_at_end, next_in};
use state::states::moved;

// How much of what is left goes into a packet.
fn packet_size(left: u32) -> u32
    ensures { result ≡ min 64 left }
{
    left.min(64)
}

// What is left after a packet.
fn rest(left: u32) -> u32
    ensures { result ≡ left - 64 }
{
    left.saturating_sub(64)
}

// The state once `count` of the bytes left are handed out; `more` is the stage where these were not the last.
fn handed_state(state: State, count: u32, left: u32, more: Stage) -> State
    requires { count ≤ state.link.task.residue }
    ensures { result ≡ handed_state state count left more }
{
    let residue = state.link.task.residue - count;
    let haltin = halt_at_end(left <= 64, residue, state.link.haltin);
    let task = Task {
        stage: next_in(left, more),
        residue,
        ..state.link.task
    };
    moved(state, haltin, state.link.haltout, task)
}

// The next packet of a source; none, where nothing is left of it.
fn next_packet(state: State, left: u32, source: Source, more: Stage) -> Asked
    requires { left ≤ state.link.task.residue }
    ensures { result ≡ next_packet state left source more }
{
    if left == 0 {
        return Asked::Quiet {
            answer: Answer::Nak,
        };
    }
    Asked::Packet {
        source,
        state: handed_state(state, packet_size(left), left, more),
    }
}

pub(crate) fn ask(state: State) -> Asked
    requires { Askable state }
    ensures { result ≡ ask state }
{
    let task = state.link.task;
    if state.link.haltin {
        return Asked::Quiet {
            answer: Answer::Stall,
        };
    }
    match task.stage {
        Stage::DataIn { place, left } => {
            let count = packet_size(left);
            let source = Source::Medium { place, count };
            let more = Stage::DataIn {
                place: place + 64,
                left: rest(left),
            };
            next_packet(state, left, source, more)
        }
        Stage::ReplyIn { reply, place, left } => {
            let count = packet_size(left);
            let source = Source::Reply {
                reply,
                place,
                count,
            };
            let more = Stage::ReplyIn {
                reply,
                place: place + 64,
                left: rest(left),
            };
            next_packet(state, left, source, more)
        }
        Stage::StatusDue { status } => {
            let csw = Csw {
                tag: task.tag,
                residue: task.residue,
                status,
            };
            Asked::Packet {
                source: Source::Status { csw },
                state: after_status(status, state),
            }
        }
        Stage::Ready | Stage::DataOut { .. } => Asked::Quiet {
            answer: Answer::Nak,
        },
    }
}
