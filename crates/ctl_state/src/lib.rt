//! The state of the cluster: what it keeps of nodes and jobs, what may happen to these, and what stays true whatever
//! happens.
#![tactic(auto)]

pub mod cluster;
pub mod counting;
pub mod holds;
pub mod job_nodes;
pub mod jobs;
pub mod laws;
pub mod limits;
pub mod planning;
pub mod record;
pub mod reserved;
