// Whether an event is one of the commonest: a whole packet of a read or of a write, or the status of a command that
// passed. The record need not be decoded for these. What is asked of the table is in place.rt. They take the two parts of the
// record that they ask, and not the third, its block.
ghost use Rattle.std.specs.Prelude.{◌≡◌, true};
ghost use Rattle.cevents.specs.Ways.{is_free, is_reading, reads_on, Passes, Gathers};

use crecord::record::{Flat, Given};
use state::fits::{in_fits, number_fits, out_fits};

// Configured, no pipe halted, and without the number that only a sense on its way has.
fn is_free(given: Given, flat: Flat) -> bool
    ensures { result ≡ is_free given flat }
{
    flat.flags == 1 && flat.extra == 0 && flat.address <= 0x7F && number_fits(given.number)
}

// A read is under way, and its numbers fit. Stage, flags and what must be 0 are compared at once, as the digits of one number:
// each test by itself would take as many instructions.
pub(crate) fn is_reading(given: Given, flat: Flat, blocks: u32) -> bool
    ensures { result ≡ is_reading given flat blocks }
{
    let zero = (flat.value as u64) + (flat.extra as u64);
    let digits = (flat.stage as u64) + 256 * (flat.flags as u64) + 65536 * zero;
    digits == 0x0102
        && in_fits(
            512 * (blocks as u64),
            flat.place,
            flat.left,
            flat.announced,
            flat.residue,
        )
        && flat.address <= 0x7F
        && number_fits(given.number)
}

// A packet of 64 bytes is due; the last one leaves no residue.
pub(crate) fn reads_on(given: Given, flat: Flat, blocks: u32, buffer: usize) -> bool
    ensures { result ≡ reads_on given flat blocks buffer }
{
    flat.stage == 2
        && flat.value == 0
        && 64 <= flat.left
        && 64 <= buffer
        && in_fits(
            512 * (blocks as u64),
            flat.place,
            flat.left,
            flat.announced,
            flat.residue,
        )
        && is_free(given, flat)
        && (flat.left != 64 || flat.residue == 64)
}

pub(crate) fn passes(given: Given, flat: Flat, buffer: usize) -> bool
    ensures { result ≡ true → Passes given flat buffer }
{
    flat.stage == 7
        && flat.place == 0
        && flat.left == 0
        && flat.value == 0
        && flat.residue <= flat.announced
        && 64 <= buffer
        && is_free(given, flat)
}

// A packet of 64 bytes; the last block is one that leaves no residue.
pub(crate) fn gathers(given: Given, flat: Flat, blocks: u32, packet: usize) -> bool
    ensures { result ≡ true → Gathers given flat blocks packet }
{
    is_free(given, flat)
        && flat.stage == 1
        && packet == 64
        && 1 <= flat.left
        && out_fits(
            blocks,
            flat.place,
            flat.left,
            flat.value,
            flat.announced,
            flat.residue,
        )
        && (flat.left != 1 || flat.residue == 512)
}
