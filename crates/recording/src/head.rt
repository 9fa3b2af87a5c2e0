// The reading head: a recording and a place in it. It reads by the plain cursor reader, and keeps the place.
ghost use Rattle.std.specs.Prelude.{◌≡◌};
ghost use Rattle.recording.specs.Cursor.{read_at, numbered};

use crate::cursor::{Reading, read_at};

#[derive(Clone, Copy)]
pub struct Head<'a> {
    pub recording: &'a [u8],
    pub entry: usize,
    pub body: usize,
}

impl<'a> Head<'a> {
    // The head at a place of a recording.
    pub fn new(recording: &'a [u8], entry: usize, body: usize) -> Head<'a>
        ensures recording { result.recording ≡ recording.entry }
        ensures entry { result.entry ≡ entry }
        ensures body { result.body ≡ body }
    {
        Head {
            recording,
            entry,
            body,
        }
    }

    // The event under the head, where the collector has so many units. The head moves on to the next place. It is no Iterator,
    // since it takes the number of units.
    pub fn next(&mut self, units: usize) -> Reading
        ensures read { numbered result ≡ numbered (read_at units self.old.recording.now self.old.entry self.old.body) }
        ensures recording { self.new.recording ≡ self.old.recording }
        ensures entry { self.new.entry ≡ result.entry }
        ensures body { self.new.body ≡ result.body }
    {
        let reading = read_at(self.recording, self.entry, self.body, units);
        self.entry = reading.entry;
        self.body = reading.body;
        reading
    }
}
