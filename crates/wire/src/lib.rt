// Bytes: numbers in byte order, decimal digits, copies into a slice, short byte strings by value, and the names that the product shows.
// Every function is total: a byte past a slice's end counts as 0, and what does not fit a slice leaves it as it was.
#![tactic(auto)]

pub mod digits;
pub mod fields;
pub mod packet;
pub mod slices;
pub mod texts;
