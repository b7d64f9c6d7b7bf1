// Operands by address while a kernel runs: the byte that an address names, the word with its operands named directly, and what 22 is said of.
#![tactic(auto)]

pub mod byte;
pub mod direct;
pub mod settle;
