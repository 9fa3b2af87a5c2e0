// The quick way of a showing call (document 02, A11): the next packet of a read is shown where it stands, not copied.
ghost use Rattle.std.specs.Prelude.{◌≡◌, ◌≤◌};
ghost use Rattle.machine.specs.Units.{most_blocks};
ghost use Rattle.cevents.specs.Quick.{shows_on, quick_shown, quick_left};

use crate::packets::read_on;
use crate::place::Place;
use crate::quick::is_reading;
use crecord::encode::shown;
use crecord::record::{Flat, Given, Record, Shown};
use machine::answer::Answer;
use machine::show::Extent;

// A read, which has no reply, goes on by a whole packet; the last one is one that leaves no residue.
fn shows_on(given: Given, flat: Flat, blocks: u32, reply: usize) -> bool
    ensures { result ≡ shows_on given flat blocks reply }
{
    reply == 0
        && is_reading(given, flat, blocks)
        && (64 < flat.left || flat.left == 64 && flat.residue == 64)
}

// A whole packet of a read, shown where it stands; none of any other call, and nothing is done. The place is the unit's;
// `reply` is the length of the lent reply.
pub(crate) fn quick_show(held: &mut Record, place: Place, reply: usize) -> Option<Shown>
    requires { place.blocks ≤ most_blocks }
    ensures shown { result ≡ quick_shown held.old place reply }
    ensures left { held.new ≡ quick_left held.old place reply }
{
    let flat = held.flat;
    if !shows_on(held.given, flat, place.blocks, reply) {
        return None;
    }
    held.flat = read_on(flat);
    let start = 512 * (place.first as usize) + (flat.place as usize);
    Some(shown(
        Answer::Data { count: 64 },
        Extent::Medium { start, count: 64 },
    ))
}
