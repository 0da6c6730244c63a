//! Why the work on a line ended.

/// Why the work on a line ended before all was told (own).
#[derive(Clone, Copy, Debug, PartialEq, Eq)]
pub enum Fault {
    /// A write failed.
    Write,
    Memory,
}
