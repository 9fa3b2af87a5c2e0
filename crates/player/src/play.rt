// The player: a recording is checked as a whole, and then its events are run, each with its line.
ghost use Rattle.std.specs.Prelude.{◌≡◌, true, ◌+◌, ◌*◌, ◌≤◌, length, drop};
ghost use Rattle.machine.specs.World.{world};
ghost use Rattle.recording.specs.Format.{formed, is_formed, parse};
ghost use Rattle.printout.specs.Writing.{Wrote};
ghost use Rattle.printout.specs.Print.{lines, refused_line};
ghost use Rattle.player.specs.Player.{run_in, bench_table, bench_medium, table_left, Leaves};

use crate::tables::part;
use crate::turns::play_one;
use collector::making::make;
use machine::record::{Device, LogicalUnit};
use printout::print::Text;
use recording::format::{count_of, is_formed};
use recording::head::Head;
use usb::descriptor::Identity;

// 64 blocks.
pub const MEDIUM: usize = 32768;

// The text's room, which always suffices (claim `TextFits`): the heading, and 1,024 lines of at most 207 bytes. An array and no
// String: the claim is of a room that cannot run out.
pub const ROOM: usize = 211980;

// The events of a well-formed recording, so many, from a record, its table and the medium on.
fn events(
    input: &[u8],
    count: usize,
    device: &mut Device,
    units: &mut [LogicalUnit],
    medium: &mut [u8],
    text: &mut Text<'_>,
)
    requires { (count ≤ 1024) × (2 + 4 * count ≤ length input.now) × (text.old.at + 207 * count ≤ length text.old.buffer.now) × (formed (length units.old) count (drop 2 input.now) (drop (2 + 4 * count) input.now) ≡ true) }
    ensures same { text.new.buffer.ghost_name ≡ text.old.buffer.ghost_name }
    ensures wrote { Wrote text.old.buffer.now text.old.at (lines 1 (run_in (length units.old) input.now count (world device.old units.old medium.old)).replies) text.new.buffer.now text.new.at }
    ensures left { world device.new units.new medium.new ≡ (run_in (length units.old) input.now count (world device.old units.old medium.old)).world }
    ensures within { text.new.at ≤ length text.old.buffer.now }
{
    let mut head = Head::new(input, 2, 2 + 4 * count);
    for done in 0..count {
        let body = head.body;
        let event = head.next(units.len());
        // A well-formed recording has an event here.
        let kind = event.kind.unwrap();
        play_one(
            device,
            units,
            medium,
            kind,
            &input[body..body + event.len],
            done + 1,
            text,
        );
    }
}

// A well-formed recording, on a collector made over the table and the medium as they stand.
fn played(
    input: &[u8],
    units: &mut [LogicalUnit],
    medium: &mut [u8],
    text: &mut [u8; ROOM],
) -> usize
    requires { is_formed (length units.old) input.now ≡ true }
    ensures leaves { Leaves units.old medium.old input.now text.old medium.old text.new result medium.new }
    ensures left { units.new ≡ table_left units.old medium.old (parse (length units.old) input.now) }
{
    let identity = Identity {
        number: 42,
        vendor: 0,
        product: 0,
        release: 0,
    };
    let mut text = Text::new(text);
    let mut device = match make(identity, units, medium) {
        Ok(device) => device,
        Err(why) => {
            let number = why.number();
            text.refusal(number as usize);
            return text.at;
        }
    };
    let count = count_of(input);
    text.heading(count);
    events(input, count, &mut device, units, medium, &mut text);
    text.at
}

// All that is printed of a malformed recording: document 01's number of it.
fn malformed(text: &mut [u8; ROOM]) -> usize
    ensures { Wrote text.old 0 (refused_line 16) text.new result }
{
    let mut text = Text::new(text);
    text.refusal(16);
    text.at
}

// Plays a recording over a table and a medium, both lent, as they stand, and writes what is printed in front of what the
// text's buffer holds; the result is the text's length.
pub fn play_over(
    input: &[u8],
    units: &mut [LogicalUnit],
    medium: &mut [u8],
    text: &mut [u8; ROOM],
) -> usize
    ensures leaves { Leaves units.old medium.old input.now text.old medium.old text.new result medium.new }
    ensures table { units.new ≡ table_left units.old medium.old (parse (length units.old) input.now) }
{
    if !is_formed(input, units.len()) {
        return malformed(text);
    }
    played(input, units, medium, text)
}

// The same over the bench's one unit of 64 blocks, which are made zero first; a malformed recording leaves them as they were.
pub fn play(input: &[u8], medium: &mut [u8; MEDIUM], text: &mut [u8; ROOM]) -> usize
    ensures { Leaves bench_table bench_medium input.now text.old medium.old text.new result medium.new }
{
    if !is_formed(input, 1) {
        return malformed(text);
    }
    medium.fill(0);
    played(input, &mut [part(0, 64)], medium, text)
}
