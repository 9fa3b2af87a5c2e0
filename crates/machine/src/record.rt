// The device's record, by value: identity, the state that events change, and the block being gathered. The logical units
// stand beside it.
use bot::csw::Status;
use scsi::reply::Reply;
use scsi::sense::Sense;
use usb::descriptor::Identity;

// The largest unit, in blocks of 512 bytes (document 02, A5). It has 2^29 bytes, so that a place in it is a u32.
pub const MOST_BLOCKS: u32 = 1_048_576;

// All that belongs to one logical unit: its part of the medium, from its first block on, its sense and its write switch.
// C lends a table of these very structs.
#[repr(C)]
#[derive(Clone, Copy)]
pub struct LogicalUnit {
    pub first: u32,
    pub blocks: u32,
    pub sense: Sense,
    // The position: 0 open, 1 closed; no other fits. A number, since C may hand over any byte.
    pub switch: u8,
}

// How far the command in hand has come.
#[derive(Clone, Copy)]
pub enum Stage {
    // A wrapper is due.
    Ready,
    // Blocks are due from the host: the next one, how many, and how many bytes of it are held.
    DataOut { block: u32, left: u32, held: u32 },
    // Bytes of the medium are due to the host: from where, and how many.
    DataIn { place: u32, left: u32 },
    // Bytes of a reply are due to the host; the reply has the values found at the wrapper. A page has none: its digits are
    // the identity's, which never changes.
    ReplyIn { reply: Reply, place: u32, left: u32 },
    // The status wrapper is due.
    StatusDue { status: Status },
}

// The command in hand, and the unit that its wrapper named; the numbers are zero where none is.
#[derive(Clone, Copy)]
pub struct Task {
    pub stage: Stage,
    pub lun: u8,
    pub tag: u32,
    pub announced: u32,
    pub residue: u32,
}

// The Bulk-Only link: the halts of both pipes, the lock, the command in hand.
#[derive(Clone, Copy)]
pub struct Link {
    pub haltin: bool,
    pub haltout: bool,
    pub locked: bool,
    pub task: Task,
}

#[derive(Clone, Copy)]
pub struct State {
    pub address: u8,
    pub configured: bool,
    pub link: Link,
}

#[derive(Clone, Copy)]
pub struct Device {
    pub identity: Identity,
    pub state: State,
    // The block being gathered: zeros where none is. How much of it is held the stage says, and C's record has it as an array.
    pub part: [u8; 512],
}
