//! Queries: what is shown of jobs, of their priorities, of nodes and partitions, and of how these stand.
#![tactic(auto)]

mod held;
mod jobs;
mod kept;
mod outlook;
mod parts;
mod pending;
mod priorities;
mod rows;
mod show;
mod shown_nodes;
mod shown_partitions;
mod shown_reservations;
mod spans;
mod standing;

pub use show::{refusal_of, view_of};
