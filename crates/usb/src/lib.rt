// USB 2.0, chapter 9, as far as the drive needs it: setup bytes to a request, and the descriptors.
#![tactic(auto)]

pub mod descriptor;
pub mod request;
