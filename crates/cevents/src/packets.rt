// The quick ways: the commonest events answered on the record's numbers, undecoded. quick.rt has their tests, place.rt the table's.
ghost use Rattle.std.specs.Prelude.{◌≡◌, ◌+◌, ◌*◌, ◌≤◌, length};
ghost use Rattle.machine.specs.Units.{most_blocks};
ghost use Rattle.cevents.specs.Ways.{moved_on, ended, read_on};
ghost use Rattle.cevents.specs.Quick.{Inside, QuickOut, QuickIn};

use crate::place::Place;
use crate::quick::{gathers, passes, reads_on};
use bot::csw::{Csw, Status, csw_bytes};
use crecord::record::{Flat, Record, Told};
use machine::answer::Answer;
use state::states::wipe;
use wire::slices::{put, put_packet};

// A transfer of a free device goes on.
pub(crate) fn moved_on(
    flat: Flat,
    stage: u8,
    residue: u32,
    place: u32,
    left: u32,
    value: u32,
) -> Flat
    ensures { result ≡ moved_on flat stage residue place left value }
{
    Flat {
        residue,
        place,
        left,
        value,
        extra: 0,
        stage,
        flags: 1,
        ..flat
    }
}

// The command of a free device has ended.
fn ended(flat: Flat) -> Flat
    ensures { result ≡ ended flat }
{
    Flat {
        tag: 0,
        announced: 0,
        lun: 0,
        ..moved_on(flat, 0, 0, 0, 0, 0)
    }
}

// After a whole packet of a read: the status is due, or more of the data.
pub(crate) fn read_on(flat: Flat) -> Flat
    requires { (64 ≤ flat.left) × (64 ≤ flat.residue) × (flat.place + 64 ≤ 512 * most_blocks) }
    ensures { result ≡ read_on flat }
{
    if flat.left == 64 {
        return moved_on(flat, 7, 0, 0, 0, 0);
    }
    moved_on(
        flat,
        2,
        flat.residue - 64,
        flat.place + 64,
        flat.left - 64,
        0,
    )
}

// A whole packet of a write; none of any other event, and nothing is done.
pub(crate) fn quick_out(
    held: &mut Record,
    place: Place,
    medium: &mut [u8],
    packet: &[u8],
) -> Option<Told>
    requires { Inside place (length medium.old) }
    ensures { QuickOut held.old place medium.old packet.now result held.new medium.new }
{
    let flat = held.flat;
    if !gathers(held.given, flat, place.blocks, packet.len()) {
        return None;
    }
    let ack = Told::from(Answer::Ack);
    put_packet(&mut held.part, flat.value as usize, packet);
    if flat.value + 64 < 512 {
        held.flat = moved_on(
            flat,
            1,
            flat.residue,
            flat.place,
            flat.left,
            flat.value + 64,
        );
        return Some(ack);
    }
    let start = 512 * ((place.first as usize) + (flat.place as usize));
    put(medium, start, &held.part);
    wipe(&mut held.part);
    if flat.left == 1 {
        held.flat = moved_on(flat, 7, 0, 0, 0, 0);
        return Some(ack);
    }
    held.flat = moved_on(
        flat,
        1,
        flat.residue - 512,
        flat.place + 1,
        flat.left - 1,
        0,
    );
    Some(ack)
}

// The status of a command that passed.
fn quick_status(held: &mut Record, place: Place, medium: &[u8], buffer: &mut [u8]) -> Option<Told>
    ensures { QuickIn held.old place medium.now buffer.old result held.new buffer.new }
{
    let flat = held.flat;
    if !passes(held.given, flat, buffer.len()) {
        return None;
    }
    let csw = Csw {
        tag: flat.tag,
        residue: flat.residue,
        status: Status::Passed,
    };
    put(buffer, 0, &csw_bytes(csw));
    held.flat = ended(flat);
    Some(Told::from(Answer::Data { count: 13 }))
}

// A whole packet of a read, or the status; none of any other event, and nothing is done.
pub(crate) fn quick_in(
    held: &mut Record,
    place: Place,
    medium: &[u8],
    buffer: &mut [u8],
) -> Option<Told>
    requires { Inside place (length medium.now) }
    ensures { QuickIn held.old place medium.now buffer.old result held.new buffer.new }
{
    let flat = held.flat;
    if !reads_on(held.given, flat, place.blocks, buffer.len()) {
        return quick_status(held, place, medium, buffer);
    }
    let start = 512 * (place.first as usize) + (flat.place as usize);
    put_packet(buffer, 0, &medium[start..start + 64]);
    held.flat = read_on(flat);
    Some(Told::from(Answer::Data { count: 64 }))
}
