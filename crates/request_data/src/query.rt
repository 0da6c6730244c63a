//! What a user asks to see.

ghost use Rattle.std.specs.Prelude.{◌≡◌, IfOk};

use crate::target::Target;
use plain_data::Plain;
use plain_data::boxed::Boxed;
use plain_data::items::Items;
use plain_data::ranged::Ranged;
use small_texts::memory_error::Memory;
use small_texts::name::Name;

/// Whose jobs are shown. squeue(1).
#[derive(PartialEq, Debug, Drop)]
pub enum Who {
    Anyone,
    /// Those of the user who asks: `--me`.
    Asker,
    /// Those of this user: `--user`.
    User(Name),
}

/// A state by which jobs are chosen. "JOB STATE CODES" in squeue(1).
#[derive(Clone, Copy, PartialEq, Eq, Debug)]
pub enum StateCode {
    Pending,
    Running,
    Completing,
    Completed,
    Cancelled,
    Failed,
    Timeout,
    NodeFail,
}

/// What a column tells of a job. `--format` in squeue(1).
#[derive(Clone, Copy, PartialEq, Eq, Debug)]
pub enum JobColumn {
    /// `%i`: its number, or its array's and its index.
    Id,
    /// `%P`
    Partition,
    /// `%j`
    JobName,
    /// `%u`
    User,
    /// `%a`
    Account,
    /// `%q`
    Qos,
    /// `%t`: its state as a code.
    Code,
    /// `%T`: its state as a word.
    State,
    /// `%M`: how long it has run, or ran.
    Time,
    /// `%D`: how many nodes it has, or needs at least.
    Nodes,
    /// `%R`: its nodes, or why it waits.
    Place,
    /// `%S`: its start, or the one planned for it.
    Start,
    /// `%Q`
    Priority,
    /// `%l`: its time limit.
    Limit,
    /// `%C`: its processors.
    Cpus,
}

/// A piece of a format. `--format` in squeue(1).
#[derive(Clone, Copy, PartialEq, Eq, Debug)]
pub enum Piece {
    /// A byte that stands for itself.
    Plain(u8),
    /// A column; with a width it is cut and padded, on the left with the dot.
    Column {
        column: JobColumn,
        width: Option<Ranged<1, 1024>>,
        dot: bool,
    },
}

/// Which jobs are shown, and how. squeue(1).
#[derive(PartialEq, Debug, Drop)]
pub struct JobQuery {
    pub who: Who,
    /// Those that one of these names; None shows all.
    pub jobs: Option<Items<Target>>,
    /// Those of this partition; None shows all.
    pub partition: Option<Name>,
    /// Those in one of these states; None shows those that haven't ended.
    pub states: Option<Items<StateCode>>,
    /// Whether a line of titles comes first.
    pub titles: bool,
    /// Whether to show the expected starts of pending jobs, and these alone.
    pub starts: bool,
    /// What a line tells; None is the usual format.
    pub format: Option<Items<Piece>>,
}

/// What to show.
#[derive(PartialEq, Debug, Drop)]
pub enum Query {
    /// Jobs. squeue(1).
    Squeue(Boxed<JobQuery>),
    /// The partitions, and how their nodes stand. sinfo(1).
    Sinfo {
        /// The one partition that is shown; None shows all.
        partition: Option<Name>,
        /// Whether a line of titles comes first.
        titles: bool,
    },
    /// What the priorities of pending jobs are made of. sprio(1).
    Sprio {
        who: Who,
        /// Those that these name; None shows all.
        jobs: Option<Items<Target>>,
        /// Whether a line of titles comes first.
        titles: bool,
    },
    /// All of the jobs that this names, or all jobs. "show job" in scontrol(1).
    ShowJob(Option<Target>),
    /// One node, or all. "show node" in scontrol(1).
    ShowNode(Option<Name>),
    /// One partition, or all. "show partition" in scontrol(1).
    ShowPartition(Option<Name>),
    /// One reservation, or all. "show reservation" in scontrol(1).
    ShowReservation(Option<Name>),
}

impl Plain for StateCode {
    fn copy(&self) -> Result<StateCode, Memory> {
        Ok(*self)
    }
}

impl Plain for Piece {
    fn copy(&self) -> Result<Piece, Memory> {
        Ok(*self)
    }
}

impl Who {
    /// The same users.
    pub fn copy(&self) -> Result<Who, Memory>
        ensures { IfOk result (λ who. who ≡ self.now) }
    {
        match self {
            Who::Anyone => Ok(Who::Anyone),
            Who::Asker => Ok(Who::Asker),
            Who::User(name) => Ok(Who::User(name.copy()?)),
        }
    }
}

impl JobQuery {
    /// An equal query.
    pub fn copy(&self) -> Result<JobQuery, Memory>
        ensures { IfOk result (λ query. query ≡ self.now) }
    {
        Ok(JobQuery {
            who: self.who.copy()?,
            jobs: self.jobs.copy()?,
            partition: self.partition.copy()?,
            states: self.states.copy()?,
            titles: self.titles,
            starts: self.starts,
            format: self.format.copy()?,
        })
    }
}

impl Plain for JobQuery {
    fn copy(&self) -> Result<JobQuery, Memory> {
        self.copy()
    }
}

impl Query {
    /// An equal query.
    pub fn copy(&self) -> Result<Query, Memory>
        ensures { IfOk result (λ query. query ≡ self.now) }
    {
        match self {
            Query::Squeue(query) => Ok(Query::Squeue(query.copy()?)),
            Query::Sinfo { partition, titles } => Ok(Query::Sinfo {
                partition: partition.copy()?,
                titles: *titles,
            }),
            Query::Sprio { who, jobs, titles } => Ok(Query::Sprio {
                who: who.copy()?,
                jobs: jobs.copy()?,
                titles: *titles,
            }),
            Query::ShowJob(target) => Ok(Query::ShowJob(*target)),
            Query::ShowNode(name) => Ok(Query::ShowNode(name.copy()?)),
            Query::ShowPartition(name) => Ok(Query::ShowPartition(name.copy()?)),
            Query::ShowReservation(name) => Ok(Query::ShowReservation(name.copy()?)),
        }
    }
}
