ghost use Rattle.std.specs.Prelude.{◌≡◌, ℕ, ◌+◌, ◌*◌, ◌^◌, ◌≤◌, ◌<◌, [], length, slice_index_or, vec_len, vec_capacity, IfOk, OnOk};
ghost use Rattle.resource_profile.specs.Levels.{HasLevels, IsLevelled, CanTake, CanGive, taken, given};
ghost use Rattle.resource_profile.specs.Windows.{IsFull};
ghost use Rattle.resource_profile.specs.declared.levels.Amount.{Amount as AnAmount};

use crate::full::{Full, last_full};
use crate::levels::{Amount, Level, give, take};
use crate::{Hold, NodeRoom};
use small_texts::memory_error::Memory;
use std::alloc::Global;

// How many levels a timeline has place for at first: most never have more.
const FIRST_LEVELS: usize = 32;

// What a node has free over time, and how many holds are on it.
#[derive(Drop)]
pub(crate) struct Timeline {
    pub(crate) levels: Vec<Level>,
    pub(crate) holds: usize,
    // Moments at which no processor is free, the last ones.
    pub(crate) full: Full,
}

impl Timeline {
    // The room, always free.
    pub(crate) fn new(alloc: Global, room: &NodeRoom) -> Result<Self, Memory>
        ensures levels { IfOk result (λ timeline.
            IsLevelled (λ _. record { cpus = room.now.cpus; mem = room.now.mem }) timeline.levels.items) }
        ensures holds { IfOk result (λ timeline. timeline.holds ≡ 0) }
        ensures full { IfOk result (λ timeline.
            (free : ℕ → AnAmount) → IsFull free timeline.full.from timeline.full.until) }
        ensures room { IfOk result (λ timeline. vec_len timeline.levels ≤ vec_capacity timeline.levels) }
    {
        let mut levels = Vec::with_capacity(alloc, FIRST_LEVELS)?;
        levels
            .push(Level {
                from: 0,
                free: Amount {
                    cpus: room.cpus,
                    mem: room.mem,
                },
            })
            .unwrap();
        Ok(Timeline {
            levels,
            holds: 0,
            full: Full::never(),
        })
    }

    // Makes place for the levels that so many more holds, and the end of every hold, can make.
    pub(crate) fn reserve(&mut self, count: u64) -> Result<(), Memory>
        requires holds { 2 * self.old.holds < 2 ^ 64 }
        requires count { count ≤ 2 ^ 33 }
        ensures levels { self.new.levels.items ≡ self.old.levels.items }
        ensures holds { self.new.holds ≡ self.old.holds }
        ensures full { self.new.full ≡ self.old.full }
        ensures len { vec_len self.new.levels ≡ vec_len self.old.levels }
        ensures capacity { vec_capacity self.old.levels ≤ vec_capacity self.new.levels }
        ensures room { OnOk result
            (vec_len self.new.levels + (2 * self.old.holds + 4 * count) ≤ vec_capacity self.new.levels) }
    {
        let Some(more) = (2 * self.holds).checked_add(4 * count as usize) else {
            return Err(Memory);
        };
        self.levels.reserve(more)?;
        Ok(())
    }

    // Adds a hold that is on this node.
    pub(crate) fn add(&mut self, hold: &Hold)
        requires room { vec_len self.old.levels + 2 ≤ vec_capacity self.old.levels }
        requires count { self.old.holds + 1 < 2 ^ 64 }
        requires window { hold.now.from < hold.now.until }
        requires free { CanTake self.old.levels.items hold.now }
        ensures kept { (free : ℕ → AnAmount) → IsLevelled free self.old.levels.items
            → IsLevelled (taken hold.now free) self.new.levels.items }
        ensures full { (free : ℕ → AnAmount) → IsLevelled free self.new.levels.items
            → IsFull free self.new.full.from self.new.full.until }
        ensures holds { self.new.holds ≡ self.old.holds + 1 }
        ensures len { vec_len self.new.levels ≤ vec_len self.old.levels + 2 }
        ensures capacity { vec_capacity self.old.levels ≤ vec_capacity self.new.levels }
    {
        take(&mut self.levels, hold);
        self.full = last_full(&self.levels);
        self.holds += 1;
    }

    // Drops a hold that is on this node, which has this room.
    pub(crate) fn drop_hold(&mut self, hold: &Hold, room: NodeRoom)
        requires room { vec_len self.old.levels + 2 ≤ vec_capacity self.old.levels }
        requires count { 1 ≤ self.old.holds }
        requires window { hold.now.from < hold.now.until }
        requires small { CanGive self.old.levels.items hold.now room }
        ensures kept { (free : ℕ → AnAmount) → IsLevelled free self.old.levels.items
            → IsLevelled (given hold.now free) self.new.levels.items }
        ensures full { (free : ℕ → AnAmount) → IsLevelled free self.new.levels.items
            → IsFull free self.new.full.from self.new.full.until }
        ensures holds { self.new.holds + 1 ≡ self.old.holds }
        ensures len { vec_len self.new.levels ≤ vec_len self.old.levels + 2 }
        ensures capacity { vec_capacity self.old.levels ≤ vec_capacity self.new.levels }
    {
        give(&mut self.levels, hold, room);
        self.full = last_full(&self.levels);
        self.holds -= 1;
    }
}
