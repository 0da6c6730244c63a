//! Passes: what is over its limit ends, old records go, the pending jobs are planned, those planned at once start, and
//! running jobs go for the highest of the others.
#![tactic(auto)]

mod base;
mod beginning;
mod input;
pub mod laws;
mod limits;
mod live_arrays;
mod naming;
mod pass;
mod preemptable;
mod same_plans;
mod split;
mod starts;
mod victims;

pub use input::{PlanInput, plan_input};
pub use live_arrays::LiveArrays;
pub use pass::{Decided, act, decide, is_idle, refusal_of};
pub use starts::DueStart;
