//! A lock for a value with a history. Threads take turns at the value; the holder of the turn may add one entry to its
//! history, which bears the number of the holder's pass. Whoever has a pass knows a beginning of the one history, and
//! which of its entries the pass made.
#![tactic(auto)]

mod kept;
mod lock;
mod pass;
mod plays;
mod refusal;
mod rule;
mod view;

pub use kept::Kept;
pub use lock::{Busy, MOST_PASSES, TurnLock};
pub use pass::{Held, Pass, Turn};
pub use refusal::SplitRefusal;
pub use view::{Claim, Found, Kind, View};
