//! What users may count on, whatever is asked. There are laws alone. A law is the contract of a function that does
//! nothing but call the laws it rests on.
#![tactic(auto)]

pub mod accounting;
pub mod laws;
pub mod plans;
pub mod starts;
