// The judge: rules 6 to 11 of one expanded word, each by itself and then in the table's order.
// Operation and word go in two, here and in `address` and `execute`, as in the paper: most tests are of the word alone, and some of the operation alone; of a struct of both each would take out its one.
#![tactic(auto)]

mod dispatch;
pub mod operands;
pub mod refusal;
pub mod regions;
pub mod served;
pub mod sources;
