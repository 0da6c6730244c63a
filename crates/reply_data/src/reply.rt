//! What the controller answers.

ghost use Rattle.std.specs.Prelude.{◌≡◌, IfOk};

use crate::orders::Orders;
use crate::refusal::Refusal;
use crate::view::View;
use small_texts::memory_error::Memory;

/// The answer to a request.
#[derive(PartialEq, Debug, Drop)]
pub enum Reply {
    /// A job was taken, and has this number.
    Submitted {
        id: u32,
    },
    /// It was done (own).
    Done,
    /// A pass was made.
    Passed {
        /// How many jobs it took out of Running.
        ended: u32,
        /// How many jobs it started.
        started: u32,
        /// How many jobs have a planned start.
        planned: u32,
    },
    /// A report was worked.
    Orders(Orders),
    /// The request would have changed nothing but the moment.
    Idle,
    /// What a query shows.
    Shown(View),
    /// The request was refused, and changed nothing.
    Refused(Refusal),
}

impl Reply {
    /// An equal reply.
    pub fn copy(&self) -> Result<Reply, Memory>
        ensures { IfOk result (λ reply. reply ≡ self.now) }
    {
        match self {
            Reply::Submitted { id } => Ok(Reply::Submitted { id: *id }),
            Reply::Done => Ok(Reply::Done),
            Reply::Passed {
                ended,
                started,
                planned,
            } => Ok(Reply::Passed {
                ended: *ended,
                started: *started,
                planned: *planned,
            }),
            Reply::Orders(orders) => Ok(Reply::Orders(orders.copy()?)),
            Reply::Idle => Ok(Reply::Idle),
            Reply::Shown(view) => Ok(Reply::Shown(view.copy()?)),
            Reply::Refused(refusal) => Ok(Reply::Refused(*refusal)),
        }
    }
}
