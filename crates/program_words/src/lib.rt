//! What the words behind the program's name ask.
#![tactic(auto)]

mod asked;
mod asking;
mod call;
mod calling;
mod controller;
mod period;
mod said;

pub use asked::{Asked, ScriptWords, ServeWords};
pub use asking::asked_in;
pub use call::Call;
