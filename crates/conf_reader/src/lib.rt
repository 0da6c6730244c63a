//! What a file slurm.conf(5) says, or the first line of it that is bad: its logical lines and their words, what one line
//! says, and what all of them say together.
#![tactic(auto)]

mod draft;
mod lines;
mod node_lines;
mod pairs;
mod part_table;
mod partition_lines;
mod reader;
mod setting_lines;
mod words;

pub use reader::read_conf;
pub use text_values::{conf_refusal, keys};
