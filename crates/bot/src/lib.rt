// USB Mass Storage Class, Bulk-Only Transport 1.0 (BOT): the command wrapper (CBW) and the status wrapper (CSW), read and
// written. Nothing here knows of SCSI.
#![tactic(auto)]

pub mod cbw;
pub mod csw;
pub mod refused;
