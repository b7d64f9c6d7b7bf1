// One look for a source field: at which sizes its twelve bits have a region that passes 9.
#![tactic(auto)]

mod entries;
pub mod regions;
