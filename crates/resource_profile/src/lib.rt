//! What the nodes have free over time: the rooms of the nodes, the holds on them, and a count of the planner's steps.
#![tactic(auto)]

mod choice;
mod dealing;
mod ends;
mod full;
pub mod laws;
mod levels;
pub mod pick_laws;
mod picking;
mod profile;
mod reserve;
mod steps;
mod timeline;

pub use levels::{Amount, Window};
pub use picking::{Dealt, Need, pick};
pub use profile::Profile;
pub use steps::{Plain, Steps, start};

/// What a node has in all: whole processors, megabytes, and whether jobs may be placed on it.
#[derive(Clone, Copy, Debug, PartialEq, Eq)]
pub struct NodeRoom {
    pub cpus: u32,
    pub mem: u64,
    pub usable: bool,
}

/// Processors and megabytes of a node that are taken from the second `from` on and before the second `until`.
#[derive(Clone, Copy, Debug, PartialEq, Eq)]
pub struct Hold {
    /// The node's place among the rooms.
    pub node: u32,
    pub from: u64,
    pub until: u64,
    pub cpus: u32,
    pub mem: u64,
}
