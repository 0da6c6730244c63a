//! The text of a saved state: written, and read again.
#![tactic(auto)]

pub mod cluster_lines;
pub mod dependency;
pub mod features;
pub mod hosts;
pub mod job_groups;
pub mod job_line;
pub mod laws;
pub mod line;
pub mod line_fields;
pub mod lists;
pub mod names;
pub mod numbers;
pub mod pairs;
pub mod parts;
pub mod quoting;
pub mod ranges;
pub mod reading;
pub mod refusal;
pub mod settings;
pub mod shares;
pub mod states;
pub mod word;
pub mod writer;
pub mod writing;

pub use laws::saved_texts_are_apart;
pub use reading::read_saved;
pub use refusal::SavedRefusal;
pub use writing::write_saved;
