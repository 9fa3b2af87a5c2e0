// The printed text, written piece by piece into a lent buffer. The public methods look first: without room for a line
// nothing is written, and the place stays. Numbers go by `digits`, as the drive's own do: by the library's formatting the text of a
// number would need a law of its own.
ghost use Rattle.std.specs.Prelude.{◌≡◌, ◌+◌, ◌*◌, ◌/◌, ◌%◌, ◌≤◌, ◌<◌, [], ◌∷◌, leb, length};
ghost use Rattle.wire.specs.Choice.{◌and◌};
ghost use Rattle.printout.specs.Writing.{Wrote};
ghost use Rattle.printout.specs.Print.{has_room, fitting, width_of, hex_digit, hexes, numeral, data_text, refused_text, answer_text, line, heading, refused_line};

use machine::answer::Answer;
use wire::digits::digits;
use wire::slices::put;

// The longest line.
const MOST_LINE: usize = 207;

// A lent buffer, and the place behind what was written into it. How much room is asked for differs from piece to piece, so that
// it stands with each and is no invariant; and so does that the buffer stays the one that was lent.
#[derive(Drop)]
pub struct Text<'a> {
    pub buffer: &'a mut [u8],
    pub at: usize,
}

#[tactic(auto, using(std::proofs::lemmas::Bool::Decides::nat_tests, crate::proofs::Measures::width_by))]
fn width_of(n: usize) -> usize
    ensures { (result ≡ width_of n) × (result ≤ 4) }
{
    match n {
        0..=9 => 1,
        10..=99 => 2,
        100..=999 => 3,
        _ => 4,
    }
}

fn hex_digit(d: u8) -> u8
    requires { d < 16 }
    ensures { result ≡ hex_digit d }
{
    if d < 10 { b'0' + d } else { b'A' - 10 + d }
}

// A byte as it is printed: a space, and two digits in upper case.
pub fn hex(b: u8) -> [u8; 3]
    ensures { result ≡ 32 ∷ hex_digit (b / 16) ∷ hex_digit (b % 16) ∷ [] }
{
    [b' ', hex_digit(b / 16), hex_digit(b % 16)]
}

impl<'a> Text<'a> {
    // Nothing is written yet.
    pub fn new(buffer: &'a mut [u8]) -> Text<'a>
        ensures same { result.buffer.ghost_name ≡ buffer.entry.ghost_name }
        ensures held { result.buffer.now ≡ buffer.old }
        ensures at { result.at ≡ 0 }
    {
        Text { buffer, at: 0 }
    }

    fn append(&mut self, s: &[u8])
        requires { self.old.at + length s.now ≤ length self.old.buffer.now }
        ensures same { self.new.buffer.ghost_name ≡ self.old.buffer.ghost_name }
        ensures wrote { Wrote self.old.buffer.now self.old.at s.now self.new.buffer.now self.new.at }
    {
        put(self.buffer, self.at, s);
        self.at += s.len();
    }

    fn numeral(&mut self, n: usize)
        requires { self.old.at + 4 ≤ length self.old.buffer.now }
        ensures same { self.new.buffer.ghost_name ≡ self.old.buffer.ghost_name }
        ensures wrote { Wrote self.old.buffer.now self.old.at (numeral n) self.new.buffer.now self.new.at }
    {
        let all = digits(n as u64);
        self.append(&all[12 - width_of(n)..])
    }

    fn hexes(&mut self, s: &[u8])
        requires { self.old.at + 3 * length s.now ≤ length self.old.buffer.now }
        ensures same { self.new.buffer.ghost_name ≡ self.old.buffer.ghost_name }
        ensures wrote { Wrote self.old.buffer.now self.old.at (hexes s.now) self.new.buffer.now self.new.at }
    {
        for &x in s {
            self.append(&hex(x));
        }
    }

    // Whether there is room for a line behind the place.
    #[tactic(auto, using(std::proofs::lemmas::Bool::Decides::nat_tests, crate::proofs::Measures::room_by))]
    fn has_room(&self) -> bool
        ensures { result ≡ has_room self.now.buffer.now self.now.at }
    {
        MOST_LINE <= self.buffer.len() && self.at <= self.buffer.len() - MOST_LINE
    }

    fn data(&mut self, n: usize, lent: &[u8])
        requires { (self.old.at + 201 ≤ length self.old.buffer.now) × (length lent.now ≤ 64) }
        ensures same { self.new.buffer.ghost_name ≡ self.old.buffer.ghost_name }
        ensures wrote { Wrote self.old.buffer.now self.old.at (data_text n lent.now) self.new.buffer.now self.new.at }
    {
        self.append(b"data ");
        self.numeral(n);
        self.hexes(&lent[..n.min(lent.len())]);
    }

    fn refused(&mut self, number: usize)
        requires { self.old.at + 201 ≤ length self.old.buffer.now }
        ensures same { self.new.buffer.ghost_name ≡ self.old.buffer.ghost_name }
        ensures wrote { Wrote self.old.buffer.now self.old.at (refused_text number) self.new.buffer.now self.new.at }
    {
        self.append(b"refused ");
        self.numeral(number);
    }

    #[tactic(auto, unfolding(crate::specs::Print::answer_text))]
    fn answer(&mut self, said: Answer, lent: &[u8])
        requires { (self.old.at + 201 ≤ length self.old.buffer.now) × (length lent.now ≤ 64) }
        ensures same { self.new.buffer.ghost_name ≡ self.old.buffer.ghost_name }
        ensures wrote { Wrote self.old.buffer.now self.old.at (answer_text said lent.now) self.new.buffer.now self.new.at }
    {
        match said {
            Answer::Data { count } => self.data(count, lent),
            Answer::Ack => self.append(b"ack"),
            Answer::Nak => self.append(b"nak"),
            Answer::Stall => self.append(b"stall"),
            Answer::Silent => self.append(b"silent"),
            Answer::Refused { why } => self.refused(why.number() as usize),
        }
    }

    // The line of the event of a number.
    pub fn line(&mut self, number: usize, said: Answer, lent: &[u8])
        ensures same { self.new.buffer.ghost_name ≡ self.old.buffer.ghost_name }
        ensures wrote { Wrote self.old.buffer.now self.old.at (fitting (has_room self.old.buffer.now self.old.at and leb (length lent.now) 64) (line number said lent.now)) self.new.buffer.now self.new.at }
    {
        if !self.has_room() || 64 < lent.len() {
            return;
        }
        self.numeral(number);
        self.append(b" ");
        self.answer(said, lent);
        self.append(b"\n");
    }

    // The first line of a recording that is played.
    pub fn heading(&mut self, count: usize)
        ensures same { self.new.buffer.ghost_name ≡ self.old.buffer.ghost_name }
        ensures wrote { Wrote self.old.buffer.now self.old.at (fitting (has_room self.old.buffer.now self.old.at) (heading count)) self.new.buffer.now self.new.at }
    {
        if !self.has_room() {
            return;
        }
        self.append(b"events ");
        self.numeral(count);
        self.append(b"\n");
    }

    // All that is printed where nothing is run.
    pub fn refusal(&mut self, number: usize)
        ensures same { self.new.buffer.ghost_name ≡ self.old.buffer.ghost_name }
        ensures wrote { Wrote self.old.buffer.now self.old.at (fitting (has_room self.old.buffer.now self.old.at) (refused_line number)) self.new.buffer.now self.new.at }
    {
        if !self.has_room() {
            return;
        }
        self.refused(number);
        self.append(b"\n");
    }
}
