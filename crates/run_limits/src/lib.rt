//! Limits on jobs: the accounts, their users and qualities of service on which limits stand, what counts towards them, and
//! which one a job reaches; and the priorities of jobs, which go by the same accounts.
#![tactic(auto)]

pub mod account_laws;
pub mod assocs;
pub mod counted;
pub mod fair_tree;
pub mod groups;
pub mod laws;
mod level;
mod limit;
mod meant;
mod order;
mod paths;
mod priorities;
pub mod reasons;
pub mod record;
pub mod rows;
mod spans;
pub mod submitting;
mod sums;
pub mod tally;
mod terms;
pub mod tree;
mod way_up;

pub use priorities::priority;
pub use terms::{PriorityInput, Term};
