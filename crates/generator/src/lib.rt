//! Scripts of jobs that are drawn from a number, to try the controller with (own).
#![tactic(auto)]

mod job;
mod number;
mod script;

pub use number::read_number;
pub use script::script_of;
