//! The controller: each request is one step of its state.
#![tactic(auto)]

mod answering;
mod changing;
pub mod controller;
pub mod entered;
mod inputs;
pub mod laws;
mod operating;
mod passing;
pub mod ranges;
mod reconfiguring;
pub mod reply;
mod reporting;
mod reserving;
mod showing;
mod sizes;
mod submitting;
