// Number 10: whether a record and its table fit together. Sums and products are taken in 64 bits: a record may hold any
// numbers.
ghost use Rattle.std.specs.Prelude.{◌≡◌};
ghost use Rattle.machine.specs.Fits.{number_fits, is_ready, idle_fits, lock_fits, task_fits, fits, out_fits, in_fits};

use machine::record::{Link, LogicalUnit, Stage, State, Task};
use scsi::reply::{kind_of, reply_size};
use units::table::{is_calm, laid_out, switches_fit, unit_at};
use usb::descriptor::Identity;

// Twelve decimal digits.
pub fn number_fits(number: u64) -> bool
    ensures { result ≡ number_fits number }
{
    number <= 999_999_999_999
}

fn is_ready(stage: Stage) -> bool
    ensures { result ≡ is_ready stage }
{
    matches!(stage, Stage::Ready)
}

// Without a configuration nothing is under way.
fn idle_fits(state: State, units: &[LogicalUnit]) -> bool
    ensures { result ≡ idle_fits state units.now }
{
    let link = state.link;
    state.configured
        || is_ready(link.task.stage)
            && !link.haltin
            && !link.haltout
            && !link.locked
            && is_calm(units)
}

// A locked device has both pipes halted.
fn lock_fits(link: Link) -> bool
    ensures { result ≡ lock_fits link }
{
    !link.locked || link.haltin && link.haltout
}

// These two take the numbers one by one, so that they can be asked of a record that is not decoded (`cevents`).

// A write under way: its blocks, the bytes held of the next one, and what of the announced length is left.
pub fn out_fits(blocks: u32, block: u32, left: u32, held: u32, announced: u32, residue: u32) -> bool
    ensures { result ≡ out_fits blocks block left held announced residue }
{
    (block as u64) + (left as u64) <= (blocks as u64)
        && held % 64 == 0
        && held < 512
        && 512 * (left as u64) <= (residue as u64)
        && residue <= announced
}

// Bytes on their way to the host, out of so many.
pub fn in_fits(size: u64, place: u32, left: u32, announced: u32, residue: u32) -> bool
    ensures { result ≡ in_fits size place left announced residue }
{
    (place as u64) + (left as u64) <= size && left <= residue && residue <= announced
}

// The command in hand is for a unit of the table.
fn task_fits(task: Task, units: &[LogicalUnit]) -> bool
    ensures { result ≡ task_fits units.now task }
{
    // First, since beyond the table `unit_at` gives a unit without blocks.
    if units.len() <= (task.lun as usize) {
        return false;
    }
    let blocks = unit_at(units, task.lun).blocks;
    match task.stage {
        Stage::Ready => true,
        Stage::DataOut { block, left, held } => {
            out_fits(blocks, block, left, held, task.announced, task.residue)
        }
        Stage::DataIn { place, left } => in_fits(
            512 * (blocks as u64),
            place,
            left,
            task.announced,
            task.residue,
        ),
        Stage::ReplyIn { reply, place, left } => in_fits(
            reply_size(kind_of(reply)) as u64,
            place,
            left,
            task.announced,
            task.residue,
        ),
        Stage::StatusDue { status: _ } => task.residue <= task.announced,
    }
}

pub fn fits(identity: Identity, state: State, units: &[LogicalUnit]) -> bool
    ensures { result ≡ fits identity state units.now }
{
    laid_out(units)
        && switches_fit(units)
        && number_fits(identity.number)
        && state.address <= 0x7F
        && idle_fits(state, units)
        && lock_fits(state.link)
        && task_fits(state.link.task, units)
}
