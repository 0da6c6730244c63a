//! What is known of a job that once ran.

use plain_data::limit::Limit;
use small_texts::name::Name;

/// Which job a line tells of: "JobID" of sacct(1), or the number of the job.
#[derive(Clone, Copy, Debug, PartialEq, Eq)]
pub enum TraceId {
    Job(u64),
    /// A task of a job array.
    Task { array: u64, task: u64 },
    /// Those tasks of a job array that hadn't been started when the trace was taken.
    WaitingTasks { array: u64 },
    /// A part of a heterogeneous job.
    Component { job: u64, place: u64 },
}

/// What became of a job: "JOB STATE CODES" of sacct(1).
#[derive(Clone, Copy, Debug, PartialEq, Eq)]
pub enum Outcome {
    Completed,
    /// It failed itself, or for its nodes.
    Failed,
    Cancelled,
    /// It was ended at its time limit.
    TimedOut,
    /// It hadn't ended when the trace was taken.
    Unfinished,
}

/// When a job was handed in, started and ended, in seconds: since 1970 where the trace is of sacct(1), else since the
/// moment at which it begins. None is what the line doesn't tell.
#[derive(Clone, Copy, Debug, PartialEq, Eq)]
pub struct TraceTimes {
    pub submit: Option<u64>,
    pub start: Option<u64>,
    pub end: Option<u64>,
    /// For how many seconds it ran.
    pub run: Option<u64>,
}

/// How much memory a job asked for, in megabytes.
#[derive(Clone, Copy, Debug, PartialEq, Eq)]
pub enum TraceMemory {
    PerProcessor(u64),
    PerNode(u64),
    InAll(u64),
}

/// What a job asked for. None is what the line doesn't tell.
#[derive(Clone, Copy, Debug, PartialEq, Eq)]
pub struct TraceNeeds {
    pub limit: Option<Limit>,
    pub nodes: Option<u64>,
    pub processors: Option<u64>,
    pub memory: Option<TraceMemory>,
}

/// Whose a job was, and where. None is what the line doesn't tell.
#[derive(Debug, Drop)]
pub struct TraceNames {
    pub user: Option<Name>,
    pub account: Option<Name>,
    pub partition: Option<Name>,
    pub qos: Option<Name>,
}

/// A job of a trace (own).
#[derive(Debug, Drop)]
pub struct TraceJob {
    pub id: TraceId,
    pub times: TraceTimes,
    pub needs: TraceNeeds,
    /// None where the line doesn't tell.
    pub outcome: Option<Outcome>,
    pub names: TraceNames,
}

/// What a line says of a job in numbers.
#[derive(Clone, Copy)]
pub(crate) struct Facts {
    pub(crate) id: TraceId,
    pub(crate) times: TraceTimes,
    pub(crate) needs: TraceNeeds,
    pub(crate) outcome: Option<Outcome>,
}

impl Facts {
    ghost use Rattle.std.specs.Prelude.{◌≡◌};
    ghost use Rattle.trace_text.specs.Jobs.{job_with};

    /// These facts with the names.
    pub(crate) fn with(self, names: TraceNames) -> TraceJob
        ensures { result ≡ job_with self names }
    {
        TraceJob {
            id: self.id,
            times: self.times,
            needs: self.needs,
            outcome: self.outcome,
            names,
        }
    }
}
