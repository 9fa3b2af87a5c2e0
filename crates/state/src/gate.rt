// The checks before an event, in document 01's order.
ghost use Rattle.std.specs.Prelude.{◌≡◌};
ghost use Rattle.state.specs.Gates.{admission};
ghost use Rattle.machine.specs.Machine.{check, in_order};

use machine::answer::{Answer, Refusal};
use machine::checks::Checks;

// A test that fails refuses the call.
#[tactic(auto, unfolding(machine::specs::Machine::check))]
fn require(passed: bool, why: Refusal) -> Result<(), Answer>
    ensures { result ≡ check passed (Answer.Refused why) (Ok tt) }
{
    if passed {
        Ok(())
    } else {
        Err(Answer::Refused { why })
    }
}

// The answer of the first test that fails.
#[tactic(auto, unfolding(machine::specs::Machine::in_order, machine::specs::Machine::check))]
pub fn admit(checks: Checks) -> Result<(), Answer>
    ensures { admission result ≡ admission (in_order checks) }
{
    require(checks.fits, Refusal::Record)?;
    require(checks.medium, Refusal::Medium)?;
    require(checks.buffer, Refusal::Buffer)?;
    require(checks.packet, Refusal::Packet)?;
    require(checks.setup, Refusal::Setup)?;
    if !checks.configured {
        return Err(Answer::Silent);
    }
    require(checks.unit, Refusal::Unit)
}
