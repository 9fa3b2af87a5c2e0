// Whether a recording is well formed: all of it is looked at before its first event runs.
ghost use Rattle.std.specs.Prelude.{◌≡◌, ◌+◌, ◌*◌, ◌≤◌, length, drop};
ghost use Rattle.recording.specs.Format.{formed, is_formed, count_of};

use crate::head::Head;
use wire::fields::le16;

const MOST_BYTES: usize = 16384;

const MOST_EVENTS: usize = 1024;

// The table of contents and the bodies behind it, for so many events.
fn entries_formed(s: &[u8], count: usize, units: usize) -> bool
    requires { (count ≤ 1024) × (2 + 4 * count ≤ length s.now) }
    ensures { result ≡ formed units count (drop 2 s.now) (drop (2 + 4 * count) s.now) }
{
    let mut head = Head::new(s, 2, 2 + 4 * count);
    // As many as the recording says, up to the first that is malformed.
    for _ in 0..count {
        if head.next(units).kind.is_none() {
            return false;
        }
    }
    head.body == s.len()
}

// How many events a recording says that it has.
pub fn count_of(s: &[u8]) -> usize
    ensures { result ≡ count_of s.now }
{
    le16(s, 0) as usize
}

// For a collector of so many units.
#[tactic(auto, using(std::proofs::lemmas::Bool::Decides::nat_tests, crate::proofs::Entries::formed_by))]
pub fn is_formed(s: &[u8], units: usize) -> bool
    ensures { result ≡ is_formed units s.now }
{
    // First: only then has it a count.
    if s.len() < 2 || MOST_BYTES < s.len() {
        return false;
    }
    let count = count_of(s);
    count <= MOST_EVENTS && 4 * count <= s.len() - 2 && entries_formed(s, count, units)
}
