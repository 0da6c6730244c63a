//! What users do to jobs: they submit, cancel, hold, release, requeue and update them. sbatch(1), scancel(1), scontrol(1).
#![tactic(auto)]

mod accounts;
pub mod action;
mod changing;
mod changing_one;
mod dependency;
mod draft;
pub mod handed;
pub mod laws;
mod leaving;
mod limits;
mod one_node;
mod placeable;
mod refusals;
mod settled;
pub mod submission_laws;
mod submission_refusals;
pub mod submit;
mod tasks;

pub use action::Action;
pub use changing::{change, change_owned, changes_any, changes_owned};
pub use refusals::{refusal_of, refusal_of_owner};
