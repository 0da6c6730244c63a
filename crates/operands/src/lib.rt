//! Words of commands that are no options: operands, jobs and states, and words of the form `KEY=VALUE`.
#![tactic(auto)]

pub mod bad_word;
pub mod format;
pub mod names;
pub mod operand;
pub mod pairs;
pub mod starts;
pub mod targets;
