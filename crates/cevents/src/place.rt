// Where the unit of the command in hand lies, in a table that fits over its medium: what the quick ways ask of the table.
ghost use Rattle.std.specs.Prelude.{◌≡◌, ◌*◌, eqb};
ghost use Rattle.wire.specs.Choice.{◌and◌};
ghost use Rattle.machine.specs.Units.{laid_out, switches_fit, total};
ghost use Rattle.cevents.specs.Ways.{place_in};

use machine::record::LogicalUnit;
use units::unit::{size_fits, switch_fits};

// The unit's first block and its size.
#[derive(Clone, Copy)]
pub(crate) struct Place {
    pub(crate) first: u32,
    pub(crate) blocks: u32,
}

// Whether a table of 1 to 4 units is laid out over a medium of so many bytes, with switches that fit. It is asked before every
// packet, so it is one pass: `laid_out`, `switches_fit` and `medium_fits`, one after the other, were measured to cost more.
fn fits_over(units: &[LogicalUnit], medium: usize) -> bool
    ensures { result ≡ (laid_out units.now and switches_fit units.now and eqb medium (512 * total units.now)) }
{
    // First, since no more than four units are read.
    if units.len() < 1 || 4 < units.len() {
        return false;
    }
    let mut next = 0;
    // The sum goes on only over parts that fit.
    for unit in units {
        if unit.first != next || !size_fits(unit.blocks) || !switch_fits(unit.switch) {
            return false;
        }
        next += unit.blocks;
    }
    medium == 512 * (next as usize)
}

// None where the table, the unit's number or the medium's length does not fit.
pub(crate) fn place_in(units: &[LogicalUnit], lun: u8, medium: usize) -> Option<Place>
    ensures { result ≡ place_in units.now lun medium }
{
    let lun = lun as usize;
    if units.len() <= lun || !fits_over(units, medium) {
        return None;
    }
    let unit = units[lun];
    Some(Place {
        first: unit.first,
        blocks: unit.blocks,
    })
}
