// From the numbers that C holds to the device's state.
ghost use Rattle.std.specs.Prelude.{◌≡◌, Some, None};
ghost use Rattle.wire.specs.Choice.{when◌then◌else◌};
ghost use Rattle.scsi.specs.Page.{page_of};
ghost use Rattle.crecord.specs.Flat.{numbers, no_value, no_numbers, is_position, form_of, is_page, page_stage, decodes, sense_from, state_from, identity_from};

use crate::record::{Flat, Given};
use bot::csw::Status;
use machine::record::{Link, Stage, State, Task};
use scsi::page::page_of;
use scsi::reply::Reply;
use scsi::sense::Sense;
use usb::descriptor::Identity;

// Most transfers have a place and what is left, no more.
fn no_value(value: u32, extra: u32) -> bool
    ensures { result ≡ no_value value extra }
{
    value == 0 && extra == 0
}

// A stage without a transfer has no numbers.
fn no_numbers(place: u32, left: u32, value: u32, extra: u32) -> bool
    ensures { result ≡ no_numbers place left value extra }
{
    place == 0 && left == 0 && no_value(value, extra)
}

// Mode Sense's value is whether the unit is write protected.
fn is_position(value: u32, extra: u32) -> bool
    ensures { result ≡ is_position value extra }
{
    value <= 1 && extra == 0
}

// A page is known by its code.
fn is_page(code: u32, extra: u32) -> bool
    ensures { result ≡ is_page code extra }
{
    match page_of(code) {
        None => false,
        Some(_) => extra == 0,
    }
}

fn page_stage(code: u32, place: u32, left: u32) -> Stage
    ensures { result ≡ page_stage (page_of code) place left }
{
    match page_of(code) {
        None => Stage::Ready,
        Some(page) => Stage::ReplyIn {
            reply: Reply::Page(page),
            place,
            left,
        },
    }
}

// It takes the numbers one by one, so that they need not be in memory for it.
fn stage_decodes(stage: u8, place: u32, left: u32, value: u32, extra: u32) -> bool
    ensures { result ≡ (form_of stage).has (numbers stage place left value extra) }
{
    match stage {
        0 => no_numbers(place, left, value, extra),
        1 => extra == 0,
        2 => no_value(value, extra),
        3 => value < 0x1000000,
        4 => no_value(value, extra),
        5 => is_position(value, extra),
        6 => extra == 0,
        7 => no_numbers(place, left, value, extra),
        8 => no_numbers(place, left, value, extra),
        9 => no_numbers(place, left, value, extra),
        10 => is_page(value, extra),
        _ => false,
    }
}

// Whether the numbers stand for a state.
pub fn decodes(flat: Flat) -> bool
    ensures { result ≡ decodes flat }
{
    let unknown = 15 < flat.flags;
    if unknown {
        return false;
    }
    stage_decodes(flat.stage, flat.place, flat.left, flat.value, flat.extra)
}

// A reply's sense stands in two numbers: its bytes, the key in the lowest, and its information.
fn sense_from(value: u32, extra: u32) -> Sense
    ensures { result ≡ sense_from value extra }
{
    let [key, asc, ascq, _] = value.to_le_bytes();
    Sense {
        key,
        asc,
        ascq,
        information: extra,
    }
}

fn stage_from(stage: u8, place: u32, left: u32, value: u32, extra: u32) -> Stage
    ensures { result ≡ (form_of stage).stage (numbers stage place left value extra) }
{
    match stage {
        0 => Stage::Ready,
        1 => Stage::DataOut {
            block: place,
            left,
            held: value,
        },
        2 => Stage::DataIn { place, left },
        3 => Stage::ReplyIn {
            reply: Reply::Sense(sense_from(value, extra)),
            place,
            left,
        },
        4 => Stage::ReplyIn {
            reply: Reply::Inquiry,
            place,
            left,
        },
        5 => Stage::ReplyIn {
            reply: Reply::ModeSense {
                protected: value == 1,
            },
            place,
            left,
        },
        6 => Stage::ReplyIn {
            reply: Reply::Capacity { blocks: value },
            place,
            left,
        },
        7 => Stage::StatusDue {
            status: Status::Passed,
        },
        8 => Stage::StatusDue {
            status: Status::Failed,
        },
        9 => Stage::StatusDue {
            status: Status::PhaseError,
        },
        10 => page_stage(value, place, left),
        _ => Stage::Ready,
    }
}

// The state that the numbers stand for; where they stand for none, some state, as its definition has it. Whether the table has
// the unit, `fits` asks.
pub fn state_from(flat: Flat) -> State
    ensures { result ≡ state_from flat }
{
    let stage = stage_from(flat.stage, flat.place, flat.left, flat.value, flat.extra);
    State {
        address: flat.address,
        configured: flat.flags % 2 == 1,
        link: Link {
            haltin: flat.flags / 2 % 2 == 1,
            haltout: flat.flags / 4 % 2 == 1,
            locked: flat.flags / 8 % 2 == 1,
            task: Task {
                stage,
                lun: flat.lun,
                tag: flat.tag,
                announced: flat.announced,
                residue: flat.residue,
            },
        },
    }
}

// The same, but none where the numbers stand for no state; no TryFrom, whose error would have nothing to say.
pub fn decode(flat: Flat) -> Option<State>
    ensures { result ≡ (when decodes flat then Some (state_from flat) else None) }
{
    if decodes(flat) {
        Some(state_from(flat))
    } else {
        None
    }
}

impl From<Given> for Identity {
    ghost from_gives = { λ given identity. identity ≡ identity_from given };

    fn from(given: Given) -> Identity {
        Identity {
            number: given.number,
            vendor: given.vendor,
            product: given.product,
            release: given.release,
        }
    }
}
