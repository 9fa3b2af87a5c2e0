// A showing call on the record as C holds it, and the reply that is lent to it.
ghost use Rattle.std.specs.Prelude.{◌≡◌, List, ℕ};
ghost use Rattle.cevents.specs.Shown.{left_shown, show_on_record, left_reply, reply_on_record};

use crate::place::place_in;
use crate::showing::quick_show;
use crate::turn::refused;
use bulk::show::{reply_parts, show_parts};
use crecord::decode::decode;
use crecord::encode::shown;
use crecord::record::{Flat, Record, Shown, Told};
use machine::answer::{Answer, Refusal};
use machine::record::LogicalUnit;
use machine::show::Extent;
use usb::descriptor::Identity;

// Any showing call: decoded, done by `bulk`, encoded. It tells a place besides, so it does not go by `turn::decoded`.
fn any_show(held: &mut Record, units: &[LogicalUnit], medium: &[u8], reply: &[u8]) -> Shown
    ensures { left_shown result held.new units.now medium.now ≡ show_on_record held.old units.now medium.now reply.now }
{
    let Some(mut state) = decode(held.flat) else {
        return shown(
            Answer::Refused {
                why: Refusal::Record,
            },
            Extent::Nowhere,
        );
    };
    let identity = Identity::from(held.given);
    let left = show_parts(identity, &mut state, units, medium, reply);
    held.flat = Flat::from(state);
    shown(left.answer, left.at)
}

// The next packet of data on bulk-in, shown where it stands. A whole packet of a read is answered by the record's numbers; for
// all else the record is decoded.
pub fn turn_show(held: &mut Record, units: &[LogicalUnit], medium: &[u8], reply: &[u8]) -> Shown
    ensures { left_shown result held.new units.now medium.now ≡ show_on_record held.old units.now medium.now reply.now }
{
    if let Some(place) = place_in(units, held.flat.lun, medium.len()) {
        if let Some(shown) = quick_show(held, place, reply.len()) {
            return shown;
        }
    }
    any_show(held, units, medium, reply)
}

// The record's reply, put into a buffer.
pub fn turn_reply(held: &Record, units: &[LogicalUnit], buffer: &mut [u8]) -> Told
    ensures { (m : List ℕ) → left_reply result buffer.new ≡ reply_on_record held.now units.now m buffer.old }
{
    let Some(state) = decode(held.flat) else {
        return refused();
    };
    let identity = Identity::from(held.given);
    Told::from(reply_parts(identity, state, units, buffer))
}
