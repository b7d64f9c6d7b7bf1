// What the channels of a source read, as numbers.
// `n ≤ 16` stands in each contract, as in `lanes`, which says why.
#![tactic(auto)]

pub mod beside;
pub mod elements;
pub mod floats;
pub mod gather;
pub mod modify;
pub mod one;
pub mod read;
pub mod rows;
mod source;
pub mod sources;
pub mod spread;
