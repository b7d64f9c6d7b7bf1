// A long kernel and one that was sent for it: whether they are the same program, and which of them to load.
#![tactic(auto)]

pub mod common;
pub mod load;
pub mod pair;
pub mod place;
