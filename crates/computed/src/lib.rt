// Rows of calls that are lent a dictionary, and the one table, in specs/. Nothing here runs.
#![tactic(auto)]
