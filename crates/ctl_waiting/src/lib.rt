//! The jobs that wait: why one can't be planned, which can, in what order, and what they need. Their priorities: what
//! associations have used, the ranks of users that follow, and which of two jobs is higher in rank.
#![tactic(auto)]

mod factors;
mod greatest;
pub mod laws;
mod priority;
mod rank_keys;
mod ranking;
mod ranks;
mod reasons;
mod tree;
mod usage;

pub use factors::{Factors, measure};
pub use priority::priority_of;
pub use rank_keys::{RankKey, is_above, key_of};
pub use ranking::{highest, highest_beside, is_highest, rank};
pub use reasons::{hindrance, hindrance_beside, limit_reached};
