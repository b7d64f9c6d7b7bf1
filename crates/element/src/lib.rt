// The numbers of one element: the value of a source's bit pattern, modified, what an operation makes of them, and that clamped. Inside, a whole number v is held as v + 2^63.
#![tactic(auto)]

pub mod arithmetic;
pub mod compare;
pub mod logic;
pub mod modifier;
pub mod result;
pub mod shift;
pub mod value;
