// The definitions of floats at a thousand pairs whose sum, product and comparisons the hardware gave, in specs/. Nothing here runs.
#![tactic(auto)]
