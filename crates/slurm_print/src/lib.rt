//! The texts that answer what is asked of the controller.
#![tactic(auto)]

pub mod heading;
pub mod malformed;
mod orders;
mod refusal;
pub mod text;
