//! What a node's daemon reports.

ghost use Rattle.std.specs.Prelude.{◌≡◌, IfOk};

use plain_data::items::Items;
use small_texts::memory_error::Memory;
use small_texts::name::Name;

/// One start of a job.
#[derive(Clone, Copy, PartialEq, Eq, Debug)]
pub struct Start {
    /// The job's number.
    pub id: u32,
    /// Which of the job's starts it is, counted from 1.
    pub number: u32,
}

/// A start that is over.
#[derive(Clone, Copy, PartialEq, Eq, Debug)]
pub struct Done {
    pub start: Start,
    /// The exit code.
    pub exit: u32,
}

/// The last report of a node that was accepted.
#[derive(Clone, Copy, PartialEq, Eq, Debug)]
pub struct Heard {
    /// The boot number of the daemon.
    pub boot: u64,
    /// The number of the report.
    pub number: u64,
    /// The second at which it was accepted.
    pub moment: u64,
}

/// What a node's daemon reports of itself (own).
#[derive(PartialEq, Debug, Drop)]
pub struct Report {
    pub node: Name,
    /// Which of the daemon's lives it is: a restarted daemon has a greater one.
    pub boot: u64,
    /// The number of the report within that life.
    pub number: u64,
    /// The starts that run there.
    pub running: Items<Start>,
    /// The starts that are over there.
    pub done: Items<Done>,
}

impl Report {
    /// An equal report.
    pub fn copy(&self) -> Result<Report, Memory>
        ensures { IfOk result (λ report. report ≡ self.now) }
    {
        Ok(Report {
            node: self.node.copy()?,
            boot: self.boot,
            number: self.number,
            running: self.running.copy()?,
            done: self.done.copy()?,
        })
    }
}
