// From the device's state and answers to the numbers that C holds.
ghost use Rattle.std.specs.Prelude.{◌≡◌};
ghost use Rattle.machine.specs.Answer.{number_of, count_of};
ghost use Rattle.crecord.specs.Flat.{sense_number, worth, flags_of, numbers, numbers_of, flat_of, given_of, answer, source_number, start_of, shown_as};

use crate::record::{Flat, Given, Shown, Told};
use bot::csw::Status;
use machine::answer::Answer;
use machine::record::{Stage, State};
use machine::show::Extent;
use scsi::page::page_code;
use scsi::reply::Reply;
use scsi::sense::Sense;
use usb::descriptor::Identity;

fn sense_number(sense: Sense) -> u32
    ensures { result ≡ sense_number sense }
{
    u32::from_le_bytes([sense.key, sense.asc, sense.ascq, 0])
}

fn worth(on: bool, value: u8) -> u8
    ensures { result ≡ worth on value }
{
    if on { value } else { 0 }
}

fn flags_of(state: State) -> u8
    ensures { result ≡ flags_of state }
{
    worth(state.configured, 1)
        + worth(state.link.haltin, 2)
        + worth(state.link.haltout, 4)
        + worth(state.link.locked, 8)
}

// A stage's number, and the four that it gives a meaning.
#[derive(Clone, Copy)]
pub struct Numbers {
    pub stage: u8,
    pub place: u32,
    pub left: u32,
    pub value: u32,
    pub extra: u32,
}

fn numbered(stage: u8, place: u32, left: u32, value: u32, extra: u32) -> Numbers
    ensures { result ≡ numbers stage place left value extra }
{
    Numbers {
        stage,
        place,
        left,
        value,
        extra,
    }
}

// A step of the From below, and no conversion that others ask for.
fn numbers_of(stage: Stage) -> Numbers
    ensures { result ≡ numbers_of stage }
{
    match stage {
        Stage::Ready => numbered(0, 0, 0, 0, 0),
        Stage::DataOut { block, left, held } => numbered(1, block, left, held, 0),
        Stage::DataIn { place, left } => numbered(2, place, left, 0, 0),
        Stage::ReplyIn { reply, place, left } => match reply {
            Reply::Sense(sense) => numbered(3, place, left, sense_number(sense), sense.information),
            Reply::Inquiry => numbered(4, place, left, 0, 0),
            Reply::ModeSense { protected } => numbered(
                5,
                place,
                left,
                worth(protected, 1) as u32,
                0,
            ),
            Reply::Capacity { blocks } => numbered(6, place, left, blocks, 0),
            Reply::Page(page) => numbered(10, place, left, page_code(page), 0),
        },
        Stage::StatusDue { status } => match status {
            Status::Passed => numbered(7, 0, 0, 0, 0),
            Status::Failed => numbered(8, 0, 0, 0, 0),
            Status::PhaseError => numbered(9, 0, 0, 0, 0),
        },
    }
}

impl From<State> for Flat {
    ghost from_gives = { λ state flat. flat ≡ flat_of state };

    fn from(state: State) -> Flat {
        let task = state.link.task;
        let numbers = numbers_of(task.stage);
        Flat {
            residue: task.residue,
            place: numbers.place,
            left: numbers.left,
            value: numbers.value,
            extra: numbers.extra,
            tag: task.tag,
            announced: task.announced,
            stage: numbers.stage,
            flags: flags_of(state),
            address: state.address,
            lun: task.lun,
        }
    }
}

impl From<Identity> for Given {
    ghost from_gives = { λ identity given. given ≡ given_of identity };

    fn from(identity: Identity) -> Given {
        Given {
            number: identity.number,
            vendor: identity.vendor,
            product: identity.product,
            release: identity.release,
        }
    }
}

impl From<Answer> for Told {
    ghost from_gives = { λ ending told. told ≡ answer (number_of ending) (count_of ending) };

    fn from(ending: Answer) -> Told {
        Told {
            number: ending.number(),
            count: ending.count(),
        }
    }
}

// C's numbers of a place: an Extent has no other.
fn source_number(at: Extent) -> u32
    ensures { result ≡ source_number at }
{
    match at {
        Extent::Nowhere => 0,
        Extent::Medium { .. } => 1,
        Extent::Reply { .. } => 2,
    }
}

fn start_of(at: Extent) -> usize
    ensures { result ≡ start_of at }
{
    match at {
        Extent::Nowhere => 0,
        Extent::Medium { start, .. } | Extent::Reply { start, .. } => start,
    }
}

// Of an answer and a place, so that it is no From.
pub fn shown(ending: Answer, at: Extent) -> Shown
    ensures { result ≡ shown_as (number_of ending) (count_of ending) at }
{
    Shown {
        number: ending.number(),
        source: source_number(at),
        start: start_of(at),
        count: ending.count(),
    }
}
