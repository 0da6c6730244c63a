//! How sessions end, by what they read. There are laws alone. A law is the contract of a function that does nothing but
//! call the laws it rests on.
#![tactic(auto)]

mod input_laws;
mod laws;

pub use input_laws::{broken_inputs_are_told, longer_inputs_are_spent};
pub use laws::{inputs_say_one_end, sessions_end_as_their_input_says};
