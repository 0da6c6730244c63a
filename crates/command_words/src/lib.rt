//! What a header asks the controller: its words, of which the last are a command's.
#![tactic(auto)]

pub mod alone;
mod cancel;
pub mod command;
pub mod fault;
pub mod framed;
pub mod header;
mod queries;
pub mod reconfigure;
mod report;
mod sbatch;
mod wanted;
