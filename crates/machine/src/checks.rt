// The checks before an event.

// What is checked. Each is true where the event lends no such input.
#[derive(Clone, Copy, Debug, PartialEq, Eq)]
pub struct Checks {
    pub fits: bool,
    pub medium: bool,
    pub buffer: bool,
    pub packet: bool,
    pub setup: bool,
    pub configured: bool,
    pub unit: bool,
}

impl Checks {
    // Of an event that lends nothing.
    pub const NOTHING: Checks = Checks {
        fits: true,
        medium: true,
        buffer: true,
        packet: true,
        setup: true,
        configured: true,
        unit: true,
    };
}
