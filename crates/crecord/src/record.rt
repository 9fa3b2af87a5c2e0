// The record as C holds it: numbers alone, so that any bytes that C hands over are values. The table of units stands beside it,
// in the structs of `machine`. include/collector.h has both again.
#[repr(C)]
#[derive(Clone, Copy)]
pub struct Given {
    pub number: u64,
    pub vendor: u16,
    pub product: u16,
    pub release: u16,
}

// The state as numbers. What place, left, value and extra mean, the stage says.
#[repr(C)]
#[derive(Clone, Copy)]
pub struct Flat {
    pub residue: u32,
    pub place: u32,
    pub left: u32,
    pub value: u32,
    pub extra: u32,
    pub tag: u32,
    pub announced: u32,
    pub stage: u8,
    // Configured 1, bulk-in halted 2, bulk-out halted 4, locked 8.
    pub flags: u8,
    pub address: u8,
    // The unit of the command in hand, 0 where none is.
    pub lun: u8,
}

#[repr(C)]
#[derive(Clone, Copy)]
pub struct Record {
    pub given: Given,
    pub flat: Flat,
    pub part: [u8; 512],
}

// Document 01's number, and the count of bytes that data has.
#[repr(C)]
#[derive(Clone, Copy)]
pub struct Told {
    pub number: u32,
    pub count: usize,
}

// The same of a showing call, and where the packet stands: in the medium 1, in the reply 2, from a byte on; without data all
// three are 0.
#[repr(C)]
#[derive(Clone, Copy)]
pub struct Shown {
    pub number: u32,
    pub source: u32,
    pub start: usize,
    pub count: usize,
}
