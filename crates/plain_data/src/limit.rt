//! Time limits.

use crate::ranged::Ranged;

/// How long a job may run: whole minutes, or without an end. "Time" in sbatch(1).
#[derive(Clone, Copy, PartialEq, Eq, Debug)]
pub enum Limit {
    Minutes(Ranged<1, 52560000>),
    /// No limit.
    Unlimited,
}
