// One logical unit: its size and its switch, and the unit with another sense or switch.
ghost use Rattle.std.specs.Prelude.{◌≡◌};
ghost use Rattle.machine.specs.Units.{size_fits, switch_fits, with_sense, with_switch, is_protected, unused};
ghost use Rattle.units.specs.Lent.{no_unit};

use machine::record::{LogicalUnit, MOST_BLOCKS};
use scsi::sense::Sense;

pub fn size_fits(blocks: u32) -> bool
    ensures { result ≡ size_fits blocks }
{
    1 <= blocks && blocks <= MOST_BLOCKS
}

// Open or closed.
pub fn switch_fits(switch: u8) -> bool
    ensures { result ≡ switch_fits switch }
{
    switch <= 1
}

// What stands for a unit beyond the table: it has no blocks. It is no Option, since the definition `unit_at` gives a unit at any
// number.
pub fn no_unit() -> LogicalUnit
    ensures { result ≡ no_unit }
{
    LogicalUnit {
        first: 0,
        blocks: 0,
        sense: Sense::NONE,
        switch: 0,
    }
}

// Another sense; the unit's part of the medium and its switch stay.
pub fn with_sense(unit: LogicalUnit, sense: Sense) -> LogicalUnit
    ensures { result ≡ with_sense unit sense }
{
    LogicalUnit { sense, ..unit }
}

// The write switch in another position; all else of the unit stays.
pub fn with_switch(unit: LogicalUnit, position: u8) -> LogicalUnit
    ensures { result ≡ with_switch unit position }
{
    LogicalUnit {
        switch: position,
        ..unit
    }
}

// The unit as a making leaves it: no sense, and its switch open.
pub fn unused(unit: LogicalUnit) -> LogicalUnit
    ensures { result ≡ unused unit }
{
    with_switch(with_sense(unit, Sense::NONE), 0)
}

// A closed switch protects its unit from being written.
pub fn is_protected(unit: LogicalUnit) -> bool
    ensures { result ≡ is_protected unit }
{
    unit.switch == 1
}
