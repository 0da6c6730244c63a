//! Which jobs stand in one of the lists alone.

ghost use Rattle.std.specs.Prelude.{◌≡◌, ◌<◌, nat_eq, ℕ, length, slice_index_or, IfOk};
ghost use Rattle.std.specs.Bool.{OnTrue};
ghost use Rattle.std.specs.HashMap.{get};
ghost use Rattle.backfill_planner.specs.declared.job.PlanJob.{PlanJob as AJob};
ghost use Rattle.plan_keeper.specs.Steady.{IsSameFrom};
ghost use Rattle.plan_keeper.specs.Marks.{FindsId, IsPast};
ghost use Rattle.plan_keeper.specs.Passing.{IsNew};

use crate::old_list::places_of;
use backfill_planner::PlanJob;
use small_texts::memory_error::Memory;
use std::alloc::Global;
use std::collections::HashMap;

/// The places of the jobs of both lists, by their ids.
#[derive(Drop)]
pub struct Places {
    pub old: HashMap<u32, usize>,
    pub new: HashMap<u32, usize>,
}

impl Places {
    /// Linear in the jobs of both lists.
    pub fn of(alloc: Global, old: &[PlanJob], ranked: &[PlanJob]) -> Result<Places, Memory>
        ensures old { IfOk result (λ places. (id : ℕ) → FindsId old.now (length old.now) id (get nat_eq places.old id)) }
        ensures new { IfOk result (λ places. (id : ℕ)
            → FindsId ranked.now (length ranked.now) id (get nat_eq places.new id)) }
    {
        Ok(Places {
            old: places_of(alloc, old)?,
            new: places_of(alloc, ranked)?,
        })
    }

    /// Whether the job at a place of the old list, which isn't the next one, stands nowhere behind this in the new list.
    pub fn is_gone(
        &self,
        old: &[PlanJob],
        before: usize,
        ranked: &[PlanJob],
        index: usize,
        now: u64,
    ) -> bool
        requires there { before < length old.now }
        requires new { (id : ℕ) → FindsId ranked.now (length ranked.now) id (get nat_eq self.now.new id) }
        requires apart { (d : AJob) → ¬ IsSameFrom now (slice_index_or old.now before d) (slice_index_or ranked.now index d) }
        ensures { OnTrue result (IsPast now old.now ranked.now index before) }
    {
        match self.new.get(&old[before].id) {
            Some(place) => *place <= index,
            None => true,
        }
    }

    /// Whether the job stands nowhere in the old list from this place on.
    pub fn is_new(&self, old: &[PlanJob], before: usize, job: &PlanJob) -> bool
        requires { (id : ℕ) → FindsId old.now (length old.now) id (get nat_eq self.now.old id) }
        ensures { OnTrue result (IsNew old.now before job.now.id) }
    {
        match self.old.get(&job.id) {
            Some(place) => *place < before,
            None => true,
        }
    }
}
