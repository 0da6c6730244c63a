//! A run of slurm_replay, but for its files: what its words want, and the text that comes of the texts of its files.
#![tactic(auto)]

mod gathering;
mod picture;
mod refusal;
mod reporting;
mod watching;
mod words;
mod working;

pub use refusal::RunRefusal;
pub use reporting::{Report, Texts, make_report};
pub use watching::{Progress, Unwatched, Watch};
pub use words::{USAGE, Wanted, WordFault, wanted_in};
