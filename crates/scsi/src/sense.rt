// Sense data (SPC-3, 4.5): why the last command failed.
ghost use Rattle.std.specs.Prelude.{◌≡◌};
ghost use Rattle.scsi.specs.Sense.{no_sense, out_of_range, is_no_sense, is_out_of_range};

// C sees this struct in its table of units.
#[repr(C)]
#[derive(Clone, Copy, PartialEq, Eq)]
pub struct Sense {
    pub key: u8,
    pub asc: u8,
    pub ascq: u8,
    // Of a range failure, the first block outside the unit; of any other, 0.
    pub information: u32,
}

impl Sense {
    pub const NONE: Sense = Sense {
        key: 0x00,
        asc: 0x00,
        ascq: 0x00,
        information: 0,
    };

    pub const INVALID_CODE: Sense = Sense {
        key: 0x05,
        asc: 0x20,
        ascq: 0x00,
        information: 0,
    };

    pub const INVALID_FIELD: Sense = Sense {
        key: 0x05,
        asc: 0x24,
        ascq: 0x00,
        information: 0,
    };

    // A Write to a unit that is write protected.
    pub const WRITE_PROTECTED: Sense = Sense {
        key: 0x07,
        asc: 0x27,
        ascq: 0x00,
        information: 0,
    };

    // A data-out packet of the wrong length.
    pub const DATA_PHASE: Sense = Sense {
        key: 0x0B,
        asc: 0x4B,
        ascq: 0x00,
        information: 0,
    };

    // A range failure, with the first block outside the unit.
    pub fn out_of_range(block: u32) -> Sense
        ensures { result ≡ out_of_range block }
    {
        Sense {
            key: 0x05,
            asc: 0x21,
            ascq: 0x00,
            information: block,
        }
    }

    // The sense of a fresh unit.
    pub fn new() -> Sense
        ensures { result ≡ no_sense }
    {
        Sense::NONE
    }

    pub fn is_none(self) -> bool
        ensures { result ≡ is_no_sense self }
    {
        self == Sense::NONE
    }

    // A range failure, whichever block it carries.
    pub fn is_out_of_range(self) -> bool
        ensures { result ≡ is_out_of_range self }
    {
        self.key == 0x05 && self.asc == 0x21 && self.ascq == 0x00
    }
}
