//! The daemon of one node, as the controller meets it: what it runs, its reports, and the orders that it takes.
#![tactic(auto)]

pub mod daemon;
pub mod laws;
mod over;
pub mod running;
mod starts;
mod turn;

pub use turn::{daemon_turn, root};
