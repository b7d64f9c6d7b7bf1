// Single floats by their 32-bit patterns: sums, products, comparisons and sign modifiers for every pattern, and restricted floats.
#![tactic(auto)]

mod entries;
pub mod operation;
pub mod restricted;
pub mod sign;
pub mod value;
