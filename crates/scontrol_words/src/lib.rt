//! What the words of scontrol(1) ask.
#![tactic(auto)]

mod action;
mod deleting;
mod holding;
mod job_update;
mod keys;
mod node_update;
mod partition_update;
mod reserving;
pub mod scontrol;
mod showing;
mod unnamed_update;
mod updating;
mod values;
