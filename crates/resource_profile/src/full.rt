//! When no processor of a node is free.

ghost use Rattle.std.specs.Prelude.{◌<◌, ℕ};
ghost use Rattle.std.specs.Bool.{OnTrue};
ghost use Rattle.resource_profile.specs.Levels.{IsLevelled};
ghost use Rattle.resource_profile.specs.Windows.{IsFull};
ghost use Rattle.resource_profile.specs.declared.levels.Amount.{Amount as AnAmount};

use crate::levels::{Level, begin_of};

// The moments from `from` on and before `until`, at which no processor is free.
#[derive(Clone, Copy)]
pub(crate) struct Full {
    pub(crate) from: u64,
    pub(crate) until: u64,
}

impl Full {
    // No moment.
    pub(crate) fn never() -> Full
        ensures { (free : ℕ → AnAmount) → IsFull free result.from result.until }
    {
        Full { from: 0, until: 0 }
    }

    // Whether some of these moments are within the window.
    pub(crate) fn crosses(&self, from: u64, until: u64) -> bool
        ensures { OnTrue result
            ((from < self.now.until) × (self.now.from < until) × (self.now.from < self.now.until)) }
    {
        from < self.until && self.from < until && self.from < self.until
    }
}

// The moments of the last level that says that no processor is free.
pub(crate) fn last_full(levels: &[Level]) -> Full
    ensures { (free : ℕ → AnAmount) → IsLevelled free levels.now → IsFull free result.from result.until }
{
    let mut place = levels.len();
    while place > 0 {
        let level = levels[place - 1];
        if level.free.cpus == 0 {
            return Full {
                from: level.from,
                until: begin_of(levels, place),
            };
        }
        place -= 1;
    }
    Full::never()
}
