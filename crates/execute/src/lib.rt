// What an instruction that is no branch does to registers and flags.
// `n ≤ 16` stands in each contract, as in `lanes`, which says why.
#![tactic(auto)]

pub mod clamp;
pub mod combine;
pub mod compare;
pub mod counts;
pub mod destination;
pub mod each;
pub mod enable;
pub mod execute;
pub mod flags;
pub mod floats;
pub mod many;
pub mod one;
pub mod results;
pub mod transfer;
