//! What is saved of a controller's cluster.
#![tactic(auto)]

mod accounts;
mod jobs;
mod nodes;
mod plan;
mod saving;

pub use saving::{saved, saved_cluster};
