//! A job of a trace as it is handed in again.

use plain_data::job::JobDesc;
use plain_data::mem_ask::MemAsk;
use plain_data::ranged::Ranged;
use plain_data::seconds::Moment;
use small_texts::name::Name;

/// Which names of a trace count, beside the users (own).
#[derive(Clone, Copy, Debug, PartialEq, Eq)]
pub struct TakenNames {
    pub account: bool,
    pub partition: bool,
    pub qos: bool,
}

/// Why a job of a trace isn't handed in (own).
#[derive(Clone, Copy, Debug, PartialEq, Eq)]
pub enum LeftOut {
    /// The trace doesn't tell when it was handed in.
    NoSubmit,
    /// The trace doesn't tell whose it is.
    NoUser,
    /// It never ran, or the trace doesn't tell for how long.
    NoRun,
    /// It asks for more than any job can, or its times are out of range.
    OutOfRange,
}

/// A job of a trace that isn't handed in (own).
#[derive(Clone, Copy, Debug, PartialEq, Eq)]
pub struct LeftOutJob {
    /// Its place in the trace, counted from 0.
    pub place: usize,
    pub reason: LeftOut,
}

/// What is asked again for a job of a trace (own).
#[derive(Debug, Drop)]
pub struct Submission {
    /// Its place in the trace, counted from 0.
    pub place: usize,
    /// The moment of the trace at which it is handed in.
    pub moment: Moment,
    pub user: Name,
    pub desc: JobDesc,
}

/// The numbers of a submission.
#[derive(Clone, Copy)]
pub(crate) struct Sizes {
    pub(crate) moment: Moment,
    pub(crate) run: Ranged<1, 2000000000>,
    pub(crate) tasks: Ranged<1, 1048576>,
    pub(crate) nodes: Ranged<1, 1024>,
    pub(crate) mem_ask: Option<MemAsk>,
}
