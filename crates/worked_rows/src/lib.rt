//! Worked rows, computed from the definitions alone, with no program: each is the contract of a function that does
//! nothing.
#![tactic(auto)]

pub mod confs;
pub mod folds;
pub mod scripts;
pub mod words;
