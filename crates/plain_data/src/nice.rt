//! The nice value of a job.

use crate::ranged::Ranged;

/// By how much a user changes a job's priority. `--nice` in sbatch(1).
#[derive(Clone, Copy, PartialEq, Eq, Debug)]
pub enum Nice {
    /// It is lowered by so much: a nice value of 0 or more.
    Lower(Ranged<0, 2147483645>),
    /// It is raised by so much: a negative nice value.
    Raise(Ranged<1, 2147483645>),
}
