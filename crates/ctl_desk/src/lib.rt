//! The book, which is the controller with its history, and the desks at which sessions ask it.
#![tactic(auto)]

pub mod book;
pub mod desk;
pub mod entry;
mod kept;
pub mod laws;
pub mod own_desk;
