//! What users have used, summed along the history: in seconds of one processor, for any window of time.
#![tactic(auto)]

mod following;
pub mod history;
pub mod laws;
pub mod lines;
mod naming;
mod running;
pub mod sums;
mod timeline;
mod timelines;
pub mod window;
