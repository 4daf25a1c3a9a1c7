// Document 01's worked examples: proofs alone, over the definitions that the contracts of the code cite.
#![tactic(auto)]
