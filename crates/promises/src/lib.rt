// The three demands as a page of theorems over the calls of the other crates: proofs/. It has no functions.
#![tactic(auto)]
