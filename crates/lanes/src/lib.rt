// Channels: masks and flags, elements read and stored. How many channels there are is a number, and `n ≤ 16` stands in each contract: a type for it would be taken apart in
// each loop, and is no plainer; nor would a slice of n be, of which what is said of the array, sixteen numbers (`Mapped`), is not so. `operands` and `execute` have it likewise.
// An element's size is a number too, with the clause `Size`: it is multiplied by, as in `scattered`, and an enum of three sizes would be made that number at each use.
#![tactic(auto)]

pub mod flags;
pub mod load;
pub mod mask;
pub mod patterns;
pub mod scatter;
pub mod store;
mod votes;
