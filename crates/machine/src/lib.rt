// The machine: channels that are awake, wait or are off, branches, the lent state, one step.
#![tactic(auto)]

pub mod branch;
pub mod channels;
mod dispatch;
pub mod ends;
pub mod posting;
pub mod posts;
pub mod start;
pub mod state;
pub mod step;
pub mod ways;
