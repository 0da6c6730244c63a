//! What the controller answers, as plain data.
#![tactic(auto)]

pub mod orders;
pub mod priority;
pub mod refusal;
pub mod reply;
pub mod short_name;
pub mod view;
