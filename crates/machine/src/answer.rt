// How an event or a making ends.
ghost use Rattle.std.specs.Prelude.{◌≡◌};
ghost use Rattle.machine.specs.Answer.{refusal_number, number_of, count_of};

#[derive(Clone, Copy)]
pub enum Answer {
    // The first `count` bytes of the lent buffer were written, or so many bytes are shown where they stand.
    Data { count: usize },
    Ack,
    Nak,
    Stall,
    // A bulk event while not configured: the device does not answer.
    Silent,
    // The call was refused, and nothing changed.
    Refused { why: Refusal },
}

#[derive(Clone, Copy)]
pub enum Refusal {
    // The record and its table do not fit together.
    Record,
    // The medium has not as many bytes as the units' blocks together.
    Medium,
    // The answer buffer is under 64 bytes.
    Buffer,
    // The bulk-out packet is over 64 bytes.
    Packet,
    // The setup has not 8 bytes.
    Setup,
    // The collector number has more than twelve digits.
    Number,
    // The unit of the switch event is beyond the table.
    Unit,
}

impl Refusal {
    // Document 01's number, and number 18 of document 02, A7.
    pub fn number(self) -> u32
        ensures { result ≡ refusal_number self }
    {
        match self {
            Refusal::Record => 10,
            Refusal::Medium => 11,
            Refusal::Buffer => 12,
            Refusal::Packet => 13,
            Refusal::Setup => 14,
            Refusal::Number => 15,
            Refusal::Unit => 18,
        }
    }
}

impl Answer {
    // Document 01's number.
    pub fn number(self) -> u32
        ensures { result ≡ number_of self }
    {
        match self {
            Answer::Data { .. } => 0,
            Answer::Ack => 1,
            Answer::Nak => 2,
            Answer::Stall => 3,
            Answer::Silent => 4,
            Answer::Refused { why } => why.number(),
        }
    }

    // How many bytes data has, 0 without data.
    pub fn count(self) -> usize
        ensures { result ≡ count_of self }
    {
        match self {
            Answer::Data { count } => count,
            _ => 0,
        }
    }
}
