// What the exported calls promise to whoever calls them: statements in specs/, and their proofs there and in proofs/. Read specs/Promises.antt first. Nothing here runs.
#![tactic(auto)]
