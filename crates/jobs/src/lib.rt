// Demand 3: jobs on different products may be mixed. It has definitions and proofs, and nothing to run.
#![tactic(auto)]
