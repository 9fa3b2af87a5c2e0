// How reading or writing a wrapper fails.
ghost use Rattle.std.specs.Prelude.{Some};
ghost use Rattle.wire.specs.Texts.{ascii};

use std::error::Error;
use std::fmt;

// Unreadable bytes, unwritable fields or a short buffer; the buffer is kept.
#[derive(Clone, Copy, Debug, PartialEq, Eq)]
pub struct Refused;

impl fmt::Display for Refused {
    ghost output = { λ _. Some (ascii "refused") };

    fn fmt<W: fmt::Write>(&self, f: &mut fmt::Formatter<W>) -> fmt::Result {
        f.write_str("refused")
    }
}

impl Error for Refused {}
