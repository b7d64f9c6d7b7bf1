// Listings: a kernel listed as text, and a text read as a kernel.
#![tactic(auto)]

pub mod jumps;
pub mod lay;
pub mod lines;
pub mod list;
pub mod read;
pub mod scan;
pub mod taken;
pub mod write;
