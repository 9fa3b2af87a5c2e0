// Units of a table to play over. Senses and switches are as a making leaves them, though none looks at them.
ghost use Rattle.std.specs.Prelude.{◌≡◌};
ghost use Rattle.scsi.specs.Sense.{no_sense};
ghost use Rattle.machine.specs.Units.{unit};

use machine::record::LogicalUnit;
use scsi::sense::Sense;

// So many blocks from a block on.
pub fn part(first: u32, blocks: u32) -> LogicalUnit
    ensures { result ≡ unit first blocks no_sense 0 }
{
    LogicalUnit {
        first,
        blocks,
        sense: Sense::NONE,
        switch: 0,
    }
}
