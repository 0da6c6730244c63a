//! Lengths of time between two seconds.

/// The seconds from one on and before another.
#[derive(Clone, Copy, Debug, PartialEq, Eq)]
pub struct Period {
    pub from: u64,
    pub until: u64,
}
