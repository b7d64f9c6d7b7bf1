// The calls step and run: an accepted kernel, judged once, decoded ahead for a run, and the lent registers and state.
#![tactic(auto)]

pub mod accepted;
pub mod acting;
pub mod ahead;
pub mod call;
pub mod calls;
pub mod lawful;
pub mod legal;
pub mod running;
pub mod ways;
