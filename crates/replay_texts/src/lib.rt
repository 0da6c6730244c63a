//! The texts of what a replay comes to: a line for each job with commas between its fields, a summary for people, and two
//! replays side by side.
#![tactic(auto)]

mod adding;
mod cells;
mod comparison;
mod csv;
mod fates;
mod groups;
mod known;
mod lines;
mod summary;
mod values;

pub use adding::with_users;
pub use comparison::push_comparison;
pub use csv::push_csv;
pub use summary::{Worked, push_summary};
