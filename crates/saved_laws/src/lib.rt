//! What users may count on when a state is saved, and a controller goes on from it. There are laws alone. A law is the
//! contract of a function that does nothing but call the laws it rests on.
#![tactic(auto)]

pub mod keeping;
pub mod ranges;
pub mod reading;
pub mod restoring;
pub mod rooms;
pub mod scripts;
