//! A script from its input to its output, with what is asked for behind its answers: the sums of a period, and the state.
#![tactic(auto)]

mod answering;
mod behind;
mod laws;
mod running;
mod saving;
mod sums;

pub use laws::whole_inputs_are_answered;
pub use running::run_script;
pub use saving::{SaveRefusal, saved_text};
