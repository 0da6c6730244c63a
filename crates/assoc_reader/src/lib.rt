//! What an association file, sacctmgr(1), says, or the first line of it that is bad: the words of its lines, its keys, and
//! what all of them say together.
#![tactic(auto)]

mod assoc_tree;
mod assoc_words;
mod counts;
mod cuts;
mod draft;
mod keys;
mod known_qos;
mod lines;
mod name_index;
mod options;
mod qos_table;
mod qos_words;
mod reader;
pub mod refusal;
mod values;

pub use reader::read_assocs;
