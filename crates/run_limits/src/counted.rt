//! What a job counts as.

/// A job, as limits count it (own).
#[derive(Clone, Copy, PartialEq, Eq, Debug)]
pub struct Counted {
    /// The number of its array.
    pub array: Option<u32>,
    /// The place of its association.
    pub assoc: u32,
    /// The place of its quality of service.
    pub qos: u32,
    /// Its tasks times the processors of each.
    pub cpus: u64,
}

/// How many jobs there are, and how many processors they count together.
#[derive(Clone, Copy, PartialEq, Eq, Debug)]
pub struct Counts {
    pub jobs: u64,
    pub cpus: u64,
}

/// Jobs that one limit counts together. "Resource limits" in slurm.conf(5).
#[derive(Clone, Copy, PartialEq, Eq, Debug)]
pub enum Group {
    /// The tasks of the array with this number.
    Array(u32),
    /// The jobs of the association at a place, and of all below it.
    Below(u32),
    /// The jobs of the quality of service at a place.
    InQos(u32),
    /// Those of them whose user is that of the association at a place.
    OfUser { assoc: u32, qos: u32 },
}
