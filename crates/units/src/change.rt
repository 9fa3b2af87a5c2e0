// What an event changes in the lent table: one unit's sense or switch, or those of every unit. Each is a line over the unit's
// own function, so that one function with a closure would be no shorter. An event writes no unit that has the change already.
ghost use Rattle.std.specs.Prelude.{◌≡◌, set};
ghost use Rattle.machine.specs.Units.{unit_at, with_sense, with_switch, switched_to, cleared, as_made};

use crate::unit::{unused, with_sense, with_switch};
use machine::record::LogicalUnit;
use scsi::sense::Sense;

// The sense of a unit that is lent by itself.
pub fn put_sense(unit: &mut LogicalUnit, sense: Sense)
    ensures { unit.new ≡ with_sense unit.old sense }
{
    if unit.sense != sense {
        *unit = with_sense(*unit, sense);
    }
}

fn put_switch(unit: &mut LogicalUnit, position: u8)
    ensures { unit.new ≡ with_switch unit.old position }
{
    if unit.switch != position {
        *unit = with_switch(*unit, position);
    }
}

// One unit's sense; beyond the table nothing changes.
pub fn set_sense(units: &mut [LogicalUnit], n: u8, sense: Sense)
    ensures { units.new ≡ set units.old n (with_sense (unit_at units.old n) sense) }
{
    let n = n as usize;
    if n < units.len() {
        put_sense(&mut units[n], sense);
    }
}

// One unit's switch; beyond the table nothing changes.
pub fn set_switch(units: &mut [LogicalUnit], n: u8, position: u8)
    ensures { units.new ≡ switched_to units.old position n }
{
    let n = n as usize;
    if n < units.len() {
        put_switch(&mut units[n], position);
    }
}

// Every sense is gone.
pub fn clear(units: &mut [LogicalUnit])
    ensures { units.new ≡ cleared units.old }
{
    for unit in units.iter_mut() {
        put_sense(unit, Sense::NONE);
    }
}

// Every unit as a making leaves it.
pub fn make_unused(units: &mut [LogicalUnit])
    ensures { units.new ≡ as_made units.old }
{
    for unit in units.iter_mut() {
        *unit = unused(*unit);
    }
}
