//! Sessions as people write them: lines with comments, moments and users that stay, scripts from files and in place; and
//! the blocks of the plain form that such lines stand for.
#![tactic(auto)]

mod blocks;
mod call;
mod fault;
mod input;
mod laws;
mod moments;
mod parts;
mod reader;
mod said;
mod script;
mod texts;
mod verb;

pub use blocks::{block_at, header_of};
pub use call::{Call, Script, Times};
pub use fault::LineFault;
pub use input::Input;
pub use laws::blocks_of_calls_are_plain;
pub use reader::{Heard, Open, Reader, hear, start};
pub use said::Standing;
pub use script::read_script;
pub use texts::{Place, fault_line, help, place_text};
