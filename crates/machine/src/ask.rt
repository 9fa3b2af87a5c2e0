// What an ask for a bulk-in packet comes to, before any byte is moved.
use crate::answer::Answer;
use crate::record::State;
use bot::csw::Csw;
use scsi::reply::Reply;

// Where the bytes of a packet stand: in the unit's part of the medium or in a reply, from a place on, or in a status wrapper.
#[derive(Clone, Copy)]
pub enum Source {
    Medium {
        place: u32,
        count: u32,
    },
    Reply {
        reply: Reply,
        place: u32,
        count: u32,
    },
    Status {
        csw: Csw,
    },
}

// Nothing is sent, and nothing changes; or a packet is sent, and this state follows. No Result: that nothing is sent is no
// error, but an answer to the host.
#[derive(Clone, Copy)]
pub enum Asked {
    Quiet { answer: Answer },
    Packet { source: Source, state: State },
}
