//! A controller restored of what was saved of one.
#![tactic(auto)]

mod accounts;
mod arrays;
mod controller;
mod holding;
mod jobs;
mod kept;
mod known;
mod nodes;
mod opening;
mod partitions;
mod plain;
mod plan;
mod refusal;
mod reservations;
mod restoring;
mod standings;
mod timing;
mod usage;

pub use controller::restore;
pub use refusal::RestoreRefusal;
pub use restoring::restored_cluster;
