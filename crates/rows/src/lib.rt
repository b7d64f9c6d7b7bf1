// Rows: cases written as text, a command a line, and what a command says of the bytes that a call is lent. Nothing here makes a call.
#![tactic(auto)]

pub mod bytes;
pub mod desk;
pub mod expect;
pub mod lay;
pub mod row;
pub mod sizes;
pub mod text;
