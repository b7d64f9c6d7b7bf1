// Long words: their bytes, fields, types, operands and operations, what the rules ask of an operation, and what the bench holds.
#![tactic(auto)]

pub mod addresses;
pub mod answer;
pub mod bytes;
pub mod decoded;
pub mod fields;
pub mod floats;
pub mod limits;
pub mod operand;
pub mod operation;
pub mod refusal;
pub mod region;
pub mod traits;
pub mod types;
pub mod unusual;
