// Clear and Set Feature: the halts of the bulk pipes (USB 2.0, 9.4.1 and 9.4.9).
ghost use Rattle.std.specs.Prelude.{◌≡◌, true, List, ℕ};
ghost use Rattle.wire.specs.Choice.{when◌then◌else◌};
ghost use Rattle.machine.specs.World.{World, in_state, out};
ghost use Rattle.machine.specs.Control.{needs_configured, clear_halt, set_halt};

use machine::answer::Answer;
use machine::record::State;
use state::states::with_halts;
use usb::request::Endpoint;

// A state that only a configured device takes.
fn acked(next: State, state: &mut State) -> Answer
    ensures { (w : World) (b : List ℕ) → out result (in_state w state.new) b ≡ needs_configured (in_state w state.old) b (out Answer.Ack (in_state w next) b) }
{
    if !state.configured {
        return Answer::Stall;
    }
    *state = next;
    Answer::Ack
}

// A locked device keeps both halts, whatever is asked.
fn halt(on: bool, locked: bool) -> bool
    ensures { result ≡ when locked then true else on }
{
    if locked { true } else { on }
}

// Clear Feature is `on = false`. The control endpoint never halts: clearing has nothing to do, setting is refused.
pub(crate) fn set_feature(on: bool, endpoint: Endpoint, state: &mut State) -> Answer
    ensures { (w : World) (b : List ℕ) → out result (in_state w state.new) b ≡ when on then set_halt endpoint (in_state w state.old) b else clear_halt endpoint (in_state w state.old) b }
{
    let link = state.link;
    let halted = halt(on, link.locked);
    match endpoint {
        Endpoint::Control => { if on { Answer::Stall } else { Answer::Ack } }
        Endpoint::BulkIn => acked(with_halts(*state, halted, link.haltout, link.locked), state),
        Endpoint::BulkOut => acked(with_halts(*state, link.haltin, halted, link.locked), state),
    }
}
