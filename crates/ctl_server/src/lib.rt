//! The server: a book behind a lock, at which connections, a planner and the daemons of the nodes take turns.
#![tactic(auto)]

mod beside;
mod closing;
mod connection;
mod connections;
mod daemons;
mod desk;
mod desk_turns;
mod ending;
pub mod laws;
mod line;
mod opening;
mod planner;
mod planning;
mod running;
mod seating;
mod serving;
mod workers;
mod working;

pub use desk::{BookLock, BookPass, LockedDesk, locked_desk};
pub use ending::ServeEnd;
pub use planner::planner_part;
pub use planning::planner_turn;
pub use serving::serve;
pub use working::{WorkerEnd, worker};
