//! Lemmas on lists that the proofs of several crates cite: nothing of the product, and no code.
#![tactic(auto)]
