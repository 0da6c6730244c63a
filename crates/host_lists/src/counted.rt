//! The names of an item, counted before any is made.

ghost use Rattle.std.specs.Prelude.{◌≤◌, length};

use crate::runs::{Run, count_new, widen};
use arrayvec::ArrayVec;

// How many names an item makes at most.
const MOST_NAMES: u64 = 1024;

/// The names of an item that were counted, each by its key: a number, and how many digits it is written in.
#[derive(Drop)]
pub(crate) struct Counted {
    // The keys. A run was new in part when it was put there, so there are no more of them than names.
    runs: ArrayVec<Run, 1024>,
    count: u64,
    ghost few: { count ≤ 1024 },
    ghost fewer_runs: { length runs.items ≤ count },
}

impl Counted {
    ghost use Rattle.std.specs.Prelude.{◌≡◌, ℕ, List, [], ◌<◌, length, fold};
    ghost use Rattle.std.specs.Bool.{OnTrue, OnFalse};
    ghost use Rattle.host_lists.specs.Hosts.{with_name};
    ghost use Rattle.host_lists.specs.Counting.{Counts, AreKeys, run_names};

    pub(crate) fn new() -> Counted
        ensures { (prefix : List ℕ) → Counts prefix result [] }
    {
        Counted {
            runs: ArrayVec::new(),
            count: 0,
        }
    }

    /// Counts the names of these keys that were not counted; false where there are too many.
    pub(crate) fn add(&mut self, keys: Run) -> bool
        requires some { keys.first < keys.end }
        requires keys { AreKeys keys }
        ensures added { OnTrue result ((prefix : List ℕ) → (names : List (List ℕ)) → Counts prefix self.old names
            → Counts prefix self.new (fold with_name names (run_names prefix keys))) }
        ensures full { OnFalse result ((prefix : List ℕ) → (names : List (List ℕ)) → Counts prefix self.old names
            → 1024 < length (fold with_name names (run_names prefix keys))) }
    {
        let count = count_new(self.runs.as_slice(), keys);
        if count > MOST_NAMES - self.count {
            return false;
        }
        self.count += count;
        if !widen(self.runs.as_mut_slice(), keys) {
            self.runs.push(keys);
        }
        true
    }
}
