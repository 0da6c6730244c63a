//! What a job waits for.

ghost use Rattle.std.specs.Prelude.{◌≡◌, IfOk};

use crate::Plain;
use crate::items::Items;
use small_texts::memory_error::Memory;

/// What must have become of the jobs that are named. `--dependency` in sbatch(1).
#[derive(Clone, Copy, PartialEq, Eq, Debug)]
pub enum DepKind {
    /// They have started.
    After,
    /// They have ended.
    AfterAny,
    /// They have ended with exit code 0.
    AfterOk,
    /// They have ended otherwise.
    AfterNotOk,
    /// The task of the same index has ended with exit code 0.
    AfterCorr,
    /// No earlier job of this user and name is left.
    Singleton,
}

/// A job, all tasks of an array, or one task of it.
#[derive(Clone, Copy, PartialEq, Eq, Debug)]
pub struct DepId {
    /// The number of a job, or of an array.
    pub id: u32,
    /// The index of the task.
    pub index: Option<u32>,
}

/// One thing that a job waits for.
#[derive(PartialEq, Debug, Drop)]
pub struct DepItem {
    pub kind: DepKind,
    /// The jobs that it names; Singleton names none.
    pub ids: Items<DepId>,
}

/// All that a job waits for.
#[derive(PartialEq, Debug, Drop)]
pub struct DepSpec {
    /// Whether one of the items is enough; else all of them are needed. A single item is needed.
    pub any: bool,
    pub items: Items<DepItem>,
}

impl Plain for DepId {
    fn copy(&self) -> Result<DepId, Memory> {
        Ok(*self)
    }
}

impl Plain for DepItem {
    fn copy(&self) -> Result<DepItem, Memory> {
        Ok(DepItem {
            kind: self.kind,
            ids: self.ids.copy()?,
        })
    }
}

impl DepSpec {
    /// An equal dependency.
    pub fn copy(&self) -> Result<DepSpec, Memory>
        ensures { IfOk result (λ spec. spec ≡ self.now) }
    {
        Ok(DepSpec {
            any: self.any,
            items: self.items.copy()?,
        })
    }
}

impl Plain for DepSpec {
    fn copy(&self) -> Result<DepSpec, Memory> {
        self.copy()
    }
}
