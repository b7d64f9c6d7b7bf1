// Worked rows that take long to compute, in specs/. Nothing here runs.
#![tactic(auto)]
