//! A saved cluster: what its controller keeps, by names, so that it can be written down and gone on from.
#![tactic(auto)]

pub mod job;
pub mod parts;
pub mod saved;
