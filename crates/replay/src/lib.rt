//! What a cluster would have done with the jobs of a trace: submissions are worked at a desk at their moments, the nodes'
//! daemons run what they are ordered, and a pass is made behind each event.
#![tactic(auto)]

mod asking;
mod calling;
mod event;
mod handing;
pub mod laws;
mod nodes;
mod pace;
mod played;
mod replaying;
mod turns;

pub use asking::look;
pub use pace::Pace;
pub use played::{Played, Run};
pub use replaying::{ReplayRefusal, Replayed, Replaying, Rest, begin, finish, go_on, replay};
