//! Sessions: the blocks of a link, answered one after another at a desk.
#![tactic(auto)]

mod answer;
mod meaning;
mod outside;
mod reading;
mod session;

pub use answer::decide;
pub use meaning::read_meaning;
pub use session::{Ended, How, serve_link};
