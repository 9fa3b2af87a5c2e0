// Whether a lent table fits, alone and over its medium, and a unit of it. A table may hold any numbers: no sum overflows.
ghost use Rattle.std.specs.Prelude.{◌*◌, ◌≡◌, ◌≤◌, eqb, length};
ghost use Rattle.scsi.specs.Sense.{is_no_sense};
ghost use Rattle.machine.specs.Units.{block_size, every, switches_fit, follow, laid_out, unit_at, total};

use crate::unit::{no_unit, size_fits, switch_fits};
use machine::record::LogicalUnit;

// Each unit is of a size within the limit, and begins where the one before it ends, the first at block 0.
fn follow(units: &[LogicalUnit]) -> bool
    requires { length units.now ≤ 4 }
    ensures { result ≡ follow 0 units.now }
{
    let mut next = 0;
    for unit in units {
        // The sum goes on only over parts that fit.
        if unit.first != next || !size_fits(unit.blocks) {
            return false;
        }
        next += unit.blocks;
    }
    true
}

// 1 to 4 units, each of a size within the limit, their parts following on from block 0.
pub fn laid_out(units: &[LogicalUnit]) -> bool
    ensures { result ≡ laid_out units.now }
{
    1 <= units.len() && units.len() <= 4 && follow(units)
}

pub fn switches_fit(units: &[LogicalUnit]) -> bool
    ensures { result ≡ switches_fit units.now }
{
    units.iter().all(|unit| switch_fits(unit.switch))
}

// No unit has a sense.
pub fn is_calm(units: &[LogicalUnit]) -> bool
    ensures { result ≡ every (λ u. is_no_sense u.sense) units.now }
{
    units.iter().all(|unit| unit.sense.is_none())
}

// A medium of so many bytes has the units' blocks, and no more.
pub fn medium_fits(units: &[LogicalUnit], length: usize) -> bool
    ensures { result ≡ eqb length (block_size * total units.now) }
{
    let mut rest = length;
    for unit in units {
        let size = 512 * (unit.blocks as usize);
        // A sum of any table's sizes might be too large for its type; a rest is not.
        if rest < size {
            return false;
        }
        rest -= size;
    }
    rest == 0
}

// The unit of a number; beyond the table, one without blocks.
pub fn unit_at(units: &[LogicalUnit], n: u8) -> LogicalUnit
    ensures { result ≡ unit_at units.now n }
{
    let n = n as usize;
    if n < units.len() { units[n] } else { no_unit() }
}
