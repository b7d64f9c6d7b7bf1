// What each exported call promises, stated in specs/Contracts.antt: nothing here needs the code that keeps it. Nothing here runs.
#![tactic(auto)]
