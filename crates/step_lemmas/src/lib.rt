//! The law of a step of the controller, which the proofs of the crates above cite: nothing of the product, and no code.
#![tactic(auto)]
