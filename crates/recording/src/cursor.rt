// The plain cursor reader: what stands at a place of a recording. A place is two numbers, where the event's entry stands
// in the table of contents and where its body starts.
ghost use Rattle.std.specs.Prelude.{◌≡◌};
ghost use Rattle.recording.specs.Format.{kind_of};
ghost use Rattle.recording.specs.Cursor.{read_at, numbered};

use wire::fields::le16;
use wire::slices::byte;

#[derive(Clone, Copy)]
pub enum Kind {
    Reset,
    Control,
    Out,
    Ask,
    Switch,
}

// An event's kind, none where nothing is well formed at the place, and its body's length; then the next place.
#[derive(Clone, Copy)]
pub struct Reading {
    pub kind: Option<Kind>,
    pub len: usize,
    pub entry: usize,
    pub body: usize,
}

// The kind that the first two bytes of an entry and its length name, with the body's first two bytes: a switch's position
// and its unit, one of so many. None for a kind that no recording has, or a length, a position or a unit that the kind
// does not have.
#[tactic(auto, using(std::proofs::lemmas::Bool::Decides::nat_tests, crate::proofs::Entries::kind_by))]
fn kind_of(
    first: u8,
    second: u8,
    len: usize,
    position: u8,
    unit: usize,
    units: usize,
) -> Option<Kind>
    ensures { result ≡ kind_of first second len position unit units }
{
    match (first, second, len) {
        (1, 0, 0) => Some(Kind::Reset),
        (2, 0, 8) => Some(Kind::Control),
        (3, 0, 0..=64) => Some(Kind::Out),
        (4, 0, 0) => Some(Kind::Ask),
        (5, 0, 2) if position <= 1 && unit < units => Some(Kind::Switch),
        _ => None,
    }
}

// The event at a place, where the collector has so many units. Where its entry or its body is beyond the recording, the
// reading stays there.
pub fn read_at(s: &[u8], entry: usize, body: usize, units: usize) -> Reading
    ensures { numbered result ≡ numbered (read_at units s.now entry body) }
{
    let stopped = Reading {
        kind: None,
        len: 0,
        entry,
        body,
    };
    if s.len() < 4 || s.len() - 4 < entry || s.len() < body {
        return stopped;
    }
    let len = le16(s, entry + 2) as usize;
    if s.len() - body < len {
        return stopped;
    }
    let unit = byte(s, body + 1) as usize;
    let kind = kind_of(
        byte(s, entry),
        byte(s, entry + 1),
        len,
        byte(s, body),
        unit,
        units,
    );
    Reading {
        kind,
        len,
        entry: entry + 4,
        body: body + len,
    }
}
