//! The small texts of a cluster's files, requests and replies, and the plain data that readers make of them: the front
//! of six crates, which gives out all that the crates above use of them.
#![tactic(auto)]

pub mod plain;

pub use host_lists::{folding, hosts};
pub use line_words::words;
pub use plain_data::{items, ranged};
pub use small_texts::{digits, fields, keywords, memory, memory_error, moment, name, pieces};
