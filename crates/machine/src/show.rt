// A packet shown where it stands, and not copied.

// Where it stands: in the lent medium or in the lent reply, from a byte on. Without data it stands nowhere.
#[derive(Clone, Copy, Debug, PartialEq, Eq)]
pub enum Extent {
    Nowhere,
    Medium { start: usize, count: usize },
    Reply { start: usize, count: usize },
}
