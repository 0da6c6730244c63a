//! What a job's priority is made of, before it is summed.

ghost use Rattle.std.specs.Prelude.{◌≤◌};

use plain_data::nice::Nice;

/// A factor from 0 to 1, `num` of `den`, and the greatest number that it can add to a priority. Without a denominator
/// it adds nothing (own).
#[derive(Clone, Copy, PartialEq, Eq, Debug)]
pub struct Term {
    /// One of the `PriorityWeight`s of slurm.conf(5).
    pub weight: u32,
    pub num: u64,
    pub den: u64,
    pub ghost within: { num ≤ den },
}

/// What a job's priority is made of.
#[derive(Clone, Copy, PartialEq, Eq, Debug)]
pub struct PriorityInput {
    /// Age, fair share, job size, partition and quality of service.
    pub terms: [Term; 5],
    pub nice: Nice,
}
