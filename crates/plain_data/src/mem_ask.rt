//! Memory that a job asks for.

use crate::ranged::Ranged;

/// The memory that a job asks for on each node (sbatch(1): `--mem`, `--mem-per-cpu`), in megabytes.
#[derive(Clone, Copy, PartialEq, Eq, Debug)]
pub enum MemAsk {
    /// All that the node has.
    All,
    PerNode(Ranged<1, 16777216>),
    PerCpu(Ranged<1, 16777216>),
}
