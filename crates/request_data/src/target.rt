//! Jobs that are named.

ghost use Rattle.std.specs.Prelude.{◌≡◌, IfOk};

use plain_data::Plain;
use plain_data::items::Items;
use small_texts::memory_error::Memory;
use small_texts::name::Name;

/// A job, all tasks of an array, or one task of it: `ID` or `ID_INDEX`. squeue(1), scancel(1).
#[derive(Clone, Copy, PartialEq, Eq, Debug)]
pub struct Target {
    /// The number of a job, or of an array.
    pub id: u32,
    /// The index of the task.
    pub index: Option<u32>,
}

/// The jobs that a user names, or all of a user's. scancel(1).
#[derive(PartialEq, Debug, Drop)]
pub enum Targets {
    /// Those that one of these names.
    List(Items<Target>),
    /// Those of this user.
    User(Name),
}

impl Plain for Target {
    fn copy(&self) -> Result<Target, Memory> {
        Ok(*self)
    }
}

impl Targets {
    /// Equal targets.
    pub fn copy(&self) -> Result<Targets, Memory>
        ensures { IfOk result (λ targets. targets ≡ self.now) }
    {
        match self {
            Targets::List(targets) => Ok(Targets::List(targets.copy()?)),
            Targets::User(user) => Ok(Targets::User(user.copy()?)),
        }
    }
}
