// Recordings of events: the format, a plain reader of one, and a reading head that keeps its place in one.
#![tactic(auto)]

pub mod cursor;
pub mod format;
pub mod head;
