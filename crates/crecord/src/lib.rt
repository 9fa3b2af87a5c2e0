// The record as C holds it, numbers alone, and the device's state that it stands for: reading, writing, and an answer by its
// number. Any numbers may come from C; those that stand for no state are told apart.
#![tactic(auto)]

pub mod decode;
pub mod encode;
pub mod record;
