//! Host expressions: the names that a text stands for, and the text of a set of names.
#![tactic(auto)]

mod brackets;
mod counted;
pub mod folding;
mod found;
pub mod hosts;
mod items;
mod runs;
