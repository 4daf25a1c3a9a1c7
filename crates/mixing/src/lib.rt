// Lists of steps, abstractly: machines, runs, jobs and mixes. It has definitions and proofs, and nothing to run.
#![tactic(auto)]
