// The starred bench figures as one statement: definitions and proofs, no code.
#![tactic(auto)]
