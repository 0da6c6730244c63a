//! The daemon of a node over a link to its controller: it reports as a client does, and takes the orders that it reads.
#![tactic(auto)]

mod ending;
mod frame;
mod link;
mod report;
mod running;
mod text;
mod turn;
mod words;

pub use ending::SlurmdEnd;
pub use link::{LinkEnd, LinkHow, link_run};
pub use report::report_words;
pub use running::{WordsFault, slurmd_run, slurmd_without_words};
pub use text::ReplyText;
pub use words::SlurmdWords;
