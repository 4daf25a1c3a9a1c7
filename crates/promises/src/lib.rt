// What the demands say of several calls together: definitions and proofs, and nothing to run.
#![tactic(auto)]
