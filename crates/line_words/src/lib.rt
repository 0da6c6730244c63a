//! The words of a line: split, and written so that they are split again.
#![tactic(auto)]

pub mod words;
