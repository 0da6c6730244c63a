//! What a replay comes to: the outcome of each job of a trace, sums over outcomes, and two replays of one trace compared.
#![tactic(auto)]

mod comparing;
mod counts;
mod groups;
mod hours;
pub mod laws;
mod named;
mod outcome;
mod outcomes;
mod rounding;
mod spans;
mod spreads;
mod summary;
mod sums;

pub use comparing::{Change, Direction, Turn, changes, most_changed};
pub use counts::Counts;
pub use groups::GroupSums;
pub use named::GroupKind;
pub use outcome::{Fate, JobOutcome, Run, Standing};
pub use outcomes::outcomes_of;
pub use rounding::thousandths;
pub use spans::{Reach, Span, span_of, wait_of};
pub use spreads::Spread;
pub use summary::{Summary, summary_of};
pub use sums::Sums;
