//! What is kept in mind while jobs are planned that don't stand at their places in the old list.

ghost use Rattle.std.specs.Prelude.{◌≡◌, ◌≢◌, ◌<◌, nat_eq, ℕ, Bool, true, false, length, set, slice_index_or, IfOk, OnOk, IfSome, IfNone, All, AllPairs, List};
ghost use Rattle.std.specs.HashMap.{get};
ghost use Rattle.backfill_planner.specs.declared.job.PlanJob.{PlanJob as AJob};
ghost use Rattle.plan_keeper.specs.Marks.{Counts, Fits, IsListed, Without};
ghost use Rattle.plan_keeper.specs.Steady.{IsNamedOnce};

use crate::old_list::{OldList, add_nodes, sum_of};
use crate::same_job::is_same_from;
use crate::unchanged::Unchanged;
use backfill_planner::PlanJob;
use small_texts::memory_error::Memory;

/// What is marked once the jobs above one of the new list are planned. The first ones, which both lists have in common,
/// aren't counted.
#[derive(Drop)]
pub struct Marks {
    /// On which nodes nothing has changed.
    pub unchanged: Unchanged,
    /// Of each node: how often it is among the nodes of the jobs so far.
    pub counts: Vec<u64>,
    /// Of each job of the old list behind the first ones: whether it is planned again already.
    pub met: Vec<bool>,
}

impl Marks {
    /// The place, among the jobs of the old list behind the first ones, of the job that is the same from now on and stands
    /// as it stood. Linear in its nodes and times.
    pub fn place_of(
        &self,
        old: &[PlanJob],
        list: &OldList,
        job: &PlanJob,
        now: u64,
    ) -> Result<Option<usize>, Memory>
        requires listed { IsListed old.now (get nat_eq list.now.places) list.now.depths.items }
        requires met { length self.now.met.items ≡ length old.now }
        requires same { All (λ node. node < length self.now.unchanged.nodes.items) job.now.nodes }
        requires counts { All (λ node. node < length self.now.counts.items) job.now.nodes }
        ensures some { IfOk result (λ place. IfSome place (Fits old.now self.now.unchanged.nodes.items
            (λ node. slice_index_or self.now.counts.items node 0)
            (λ before. slice_index_or self.now.met.items before false) now job.now)) }
        ensures none { IfOk result (λ place. IfNone place ((before : ℕ) → IsNamedOnce old.now before
            → ¬ Fits old.now self.now.unchanged.nodes.items
            (λ node. slice_index_or self.now.counts.items node 0)
            (λ before. slice_index_or self.now.met.items before false) now job.now before)) }
    {
        let Some(place) = list.places.get(&job.id) else {
            return Ok(None);
        };
        let place = *place;
        let nodes = job.nodes.as_slice();
        if self.met[place]
            || !self.unchanged.has_all(nodes)
            || !is_same_from(&old[place], job, now)
        {
            return Ok(None);
        }
        if sum_of(&self.counts, nodes)? != list.depths[place] {
            return Ok(None);
        }
        Ok(Some(place))
    }

    /// One job more is planned: as the one at a place of the old list was, or anew. Linear in its nodes. After want of
    /// memory the marks are of no use.
    pub fn go_on(&mut self, job: &PlanJob, before: Option<usize>) -> Result<(), Memory>
        requires counts { All (λ node. node < length self.old.counts.items) job.now.nodes }
        requires met { IfSome before (λ before. before < length self.old.met.items) }
        ensures counts { OnOk result (Counts self.old.counts.items job.now self.new.counts.items) }
        ensures some { OnOk result (IfSome before (λ before.
            (self.new.unchanged.nodes.items ≡ self.old.unchanged.nodes.items)
            × (self.new.met.items ≡ set self.old.met.items before true))) }
        ensures none { OnOk result (IfNone before ((self.new.met.items ≡ self.old.met.items)
            × Without self.old.unchanged.nodes.items job.now self.new.unchanged.nodes.items)) }
    {
        add_nodes(&mut self.counts, job.nodes.as_slice())?;
        self.unchanged.go_on(job, before);
        if let Some(before) = before {
            self.met[before] = true;
        }
        Ok(())
    }
}
