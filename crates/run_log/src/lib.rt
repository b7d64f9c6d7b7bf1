// A log of finished runs in a lent buffer.
// Log and count go in two, as C lends them: a count may be past the buffer, which is 1.
#![tactic(auto)]

pub mod calls;
pub mod read;
pub mod write;
