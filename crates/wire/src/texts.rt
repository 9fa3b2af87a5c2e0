// The names that the product shows, to SCSI's Inquiry and as USB strings.
pub const VENDOR: [u8; 7] = *b"COLLECT";

pub const PRODUCT: [u8; 12] = *b"METER EXPORT";
