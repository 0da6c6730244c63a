//! The reader of sbatch(1): the job that the words of a command and its script ask for, or the first place at which
//! they are wrong. Its options by one table, what each says of a job, and the texts that have a grammar of their own.
#![tactic(auto)]

pub mod array;
mod command;
pub mod dependency;
mod description;
mod draft;
mod entries;
pub mod features;
mod lines;
pub mod reader;
pub mod refusal;
mod said;
pub mod table;
pub mod values;
