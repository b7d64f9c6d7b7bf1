// Distances of branches: where they stand in a word, where they lead, and a word with another one. Rule 12, packing and running go by these.
#![tactic(auto)]

pub mod branch;
pub mod distance;
