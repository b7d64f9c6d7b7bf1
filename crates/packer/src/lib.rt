// Packing and unpacking: a kernel's instructions laid out anew, each distance rewritten.
#![tactic(auto)]

pub mod form;
pub mod pack;
pub mod place;
pub mod write;
