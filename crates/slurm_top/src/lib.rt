//! What the program does with its words: the cluster of its files is read and opened, a script is answered there, or it is
//! served until a shutdown is accepted; or a server is called.
#![tactic(auto)]

mod call_end;
mod calling;
mod end;
mod files_run;
mod gates;
mod generate;
mod place;
mod program;
mod reading;
mod refusal;
mod serving;
mod simulated;

pub use call_end::CallEnd;
pub use calling::call_server;
pub use end::{End, end_unopened, tell};
pub use program::{WordsFault, run, run_without_words};
