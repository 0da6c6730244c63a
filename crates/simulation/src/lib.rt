//! Simulations: the jobs of a generated script on a cluster whose nodes' daemons run them (own).
#![tactic(auto)]

mod asking;
mod laws;
mod nodes;
mod rota;
mod round;
mod script;
mod simulating;
mod summary;
mod tally;

pub use simulating::{SimulationRefusal, generate_run};
