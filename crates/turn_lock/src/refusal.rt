//! Why no number is given.

/// No further pass was made.
#[derive(Clone, Copy, Debug, PartialEq, Eq)]
pub enum SplitRefusal {
    /// As many passes were made as a lock has numbers for.
    Spent { made: u64 },
    /// Another pass was made meanwhile: so many were found after so many had been seen.
    Raced { looked: u64, word: u64 },
}
