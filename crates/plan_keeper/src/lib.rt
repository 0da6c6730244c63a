//! Plans that are kept up: a plan is made over an older one, and equals planning from scratch.
#![tactic(auto)]

mod beginning;
mod both_plans;
mod finding;
mod kept;
pub mod laws;
mod made_again;
mod marks;
mod node_seconds;
mod old_list;
mod places;
mod replanning;
mod same_job;
mod same_nodes;
mod same_placed;
mod same_plan;
mod same_times;
mod staying;
mod unchanged;
mod unmoved;

pub use replanning::replan;
