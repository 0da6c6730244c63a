//! What comes of the nodes' daemons: reports, also of daemons that were restarted, what they do to the jobs and what the
//! nodes are ordered; and passes, which see to nodes that fell silent first.
#![tactic(auto)]

mod at_node;
mod inputs;
mod jobs;
mod kept;
pub mod laws;
mod leaving;
mod nodes;
mod ordering;
mod passing;
pub mod report;
pub mod report_laws;
mod restarting;
mod silence;
mod starts;

pub use inputs::input;
pub use passing::{PassMade, PassOutcome, pass};
pub use restarting::{accept, orders};
