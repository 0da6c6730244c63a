//! The small texts of a cluster's files, requests and replies: names, numbers, amounts of memory and
//! moments; and the pieces that printed texts are joined of.
#![tactic(auto)]

mod civil;
pub mod digits;
pub mod fields;
pub mod keywords;
pub mod memory;
pub mod memory_error;
pub mod moment;
pub mod name;
pub mod pieces;
mod text;
