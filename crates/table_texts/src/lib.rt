//! The texts of what is shown: the tables that squeue(1), sinfo(1) and sprio(1) print, and the lines of "scontrol show",
//! scontrol(1).
#![tactic(auto)]

mod columns;
mod dependency;
mod field;
mod form;
pub mod ranges;
pub mod show;
mod show_job;
mod show_node;
mod show_partition;
mod show_reservation;
pub mod sinfo;
pub mod sprio;
pub mod squeue;
mod told;
pub mod values;
