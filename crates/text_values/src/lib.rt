//! Values that texts give, of files and of commands alike: numbers, names, nodes, times, memory, lists of such; the options
//! of any command and the keys of slurm.conf; and why a text is no good.
#![tactic(auto)]

pub mod arguments;
pub mod conf_lists;
pub mod conf_refusal;
pub mod jobs;
pub mod keys;
pub mod lists;
pub mod memory;
pub mod names;
pub mod nice;
pub mod node_names;
pub mod node_table;
pub mod nodes;
pub mod numbers;
pub mod refusal;
pub mod scheduler;
pub mod states;
pub mod tables;
pub mod times;
pub mod values;
pub mod word_refusal;
