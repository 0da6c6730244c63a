//! The table of jobs: what is kept of each, what may happen to one, which jobs a user names, and whether what a job waits
//! for has come.
#![tactic(auto)]

pub mod awaited;
pub mod behind;
mod blocks;
pub mod change;
pub mod dependency_laws;
pub mod jobs;
pub mod laws;
mod moving;
mod on_node;
pub mod record;
pub mod standing;
pub mod targets;
pub mod terms;
pub mod unended;
pub mod usage;
