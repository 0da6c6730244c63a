//! Sessions as people write them, at a desk that nobody else asks: each line is shown, and behind it stand the answers
//! to the blocks that it stands for, or what is wrong with it.
#![tactic(auto)]

mod answer;
mod asking;
mod fault;
mod laws;
mod line;
mod line_laws;
mod lines;
mod session;
mod writing;

pub use fault::Fault;
pub use laws::plain_sessions_answer_alike;
pub use line_laws::{lines_are_cut, the_last_line_may_lack_its_end};
pub use lines::{Found, LONGEST_LINE, next_line};
pub use session::{Ended, How, talk};
