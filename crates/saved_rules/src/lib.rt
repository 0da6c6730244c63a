//! Which values of a saved state can be read again: all that their types hold, where they stand in order and what their
//! jobs ask for is by the rules of sbatch(1), as all is that a block asks.
#![tactic(auto)]

pub mod cluster;
pub mod job;
pub mod laws;
pub mod parts;
pub mod saved;
pub mod typed;
pub mod values;

pub use laws::{what_is_asked_is_by_the_rules, what_sbatch_asks_is_by_the_rules};
pub use saved::tell_savable;
