ghost use Rattle.std.specs.Prelude.{◌≡◌, ℕ, ◌≤◌, ◌<◌, ◌+◌, ◌++◌, length, take, slice_index_or, slice_get, option_copied, IfOk, OnOk, OnErr, All};
ghost use Rattle.resource_profile.specs.Counts.{ticked, IsTickedUpTo};
ghost use Rattle.resource_profile.specs.Profiles.{AreWithin};
ghost use Rattle.backfill_planner.specs.declared.Placed.{Placed};
ghost use Rattle.backfill_planner.specs.declared.job.PlanJob.{PlanJob as AJob};
ghost use Rattle.backfill_planner.specs.Placements.{IsOnRooms, IsPlannable, AreParts, StartsFit};
ghost use Rattle.backfill_planner.specs.Making.{IsPlanned};
ghost use Rattle.backfill_planner.specs.Plans.{AreCounted, placement_of, plan_of, plan_holds_of};

use crate::Placed;
use crate::base::Base;
use crate::job::PlanJob;
use crate::planning::Planning;
use resource_profile::Steps;
use small_texts::memory_error::Memory;
use std::alloc::Global;
use std::marker::Model;

/// A plan, with the base, the ranked list of jobs and the moment that it was made of.
#[derive(Drop)]
pub struct Planned {
    base: Base,
    ranked: Vec<PlanJob>,
    moment: u64,
    placements: Vec<Placed>,
    // How many of the placements the first jobs have, for each number of these.
    counts: Vec<usize>,
}

impl Model for Planned {
    ghost use Rattle.backfill_planner.specs.Plans.{PlannedView};
    ghost use Rattle.backfill_planner.specs.Making.{IsPlanned};

    ghost Value = { PlannedView };

    ghost view = { λ planned. record { base = planned.base; ranked = planned.ranked.items; moment = planned.moment } };

    ghost invariant = { λ planned. IsPlanned planned.base planned.ranked.items planned.moment
        planned.placements.items planned.counts.items };
}

// The placement at an index of the list of placements, if there is one.
fn at(placements: &[Placed], index: usize) -> Option<&Placed>
    ensures { option_copied result ≡ slice_get placements.now index }
{
    placements.get(index)
}

// Equal jobs, in their order.
fn copy_jobs(alloc: Global, jobs: &[PlanJob]) -> Result<Vec<PlanJob>, Memory>
    ensures { IfOk result (λ copies. copies.items ≡ jobs.now) }
{
    let mut copies = Vec::with_capacity(alloc, jobs.len())?;
    for job in jobs {
        copies.push(job.copy()?)?;
    }
    Ok(copies)
}

// Equal placements, in their order.
fn copy_placements(alloc: Global, placements: &[Placed]) -> Result<Vec<Placed>, Memory>
    ensures { IfOk result (λ copies. copies.items ≡ placements.now) }
{
    let mut copies = Vec::with_capacity(alloc, placements.len())?;
    for placed in placements {
        copies.push(placed.copy(alloc)?)?;
    }
    Ok(copies)
}

impl Planned {
    // The plan of these parts.
    pub(crate) fn of(
        base: Base,
        ranked: Vec<PlanJob>,
        moment: u64,
        placements: Vec<Placed>,
        counts: Vec<usize>,
    ) -> Planned
        requires { IsPlanned base ranked.items moment placements.items counts.items }
        ensures { result ≡ record { base = base; ranked = ranked.items; moment = moment } }
    {
        Planned {
            base,
            ranked,
            moment,
            placements,
            counts,
        }
    }

    /// An equal plan. Linear in the jobs, the parts of the placements, and the rooms and holds of the base: a job shares
    /// its nodes and times with its copy.
    pub fn copy(&self, alloc: Global) -> Result<Planned, Memory>
        ensures { IfOk result (λ planned. planned ≡ self.now) }
    {
        let ranked = copy_jobs(alloc, self.ranked.as_slice())?;
        let placements = copy_placements(alloc, self.placements.as_slice())?;
        Ok(Planned {
            base: self.base.copy(alloc)?,
            ranked,
            moment: self.moment,
            placements,
            counts: Vec::from_slice(alloc, self.counts.as_slice())?,
        })
    }

    /// The placements, in the order of the list.
    pub fn placements(&self) -> &[Placed]
        ensures { result.now ≡ plan_of self.now.base self.now.ranked self.now.moment }
    {
        self.placements.as_slice()
    }

    /// The placements by themselves, in the order of the list. It takes no memory.
    pub fn into_placements(self) -> Vec<Placed>
        ensures { result.items ≡ plan_of self.base self.ranked self.moment }
    {
        self.placements
    }

    /// The placement of the job at a place of the list, if it has one. Constant time.
    pub fn placement_of(&self, place: usize) -> Option<&Placed>
        requires { place < length self.now.ranked }
        ensures { (d : AJob) → option_copied result
            ≡ placement_of self.now.base self.now.ranked self.now.moment place
            (slice_index_or self.now.ranked place d) }
    {
        let first = self.counts[place];
        if first < self.counts[place + 1] {
            at(self.placements.as_slice(), first)
        } else {
            None
        }
    }

    /// How many placements the jobs have up to that at a place of the list, it among them. Constant time.
    pub fn count_up_to(&self, place: usize) -> usize
        requires { place < length self.now.ranked }
        ensures { result ≡ length (plan_of self.now.base (take (place + 1) self.now.ranked) self.now.moment) }
    {
        self.counts[place + 1]
    }

    /// The plan of other jobs, or at another moment, that has the same placements; `counts` says how many of these the
    /// first jobs have, for each number of jobs. Linear in the parts of the placements.
    pub fn copy_for(
        &self,
        alloc: Global,
        base: Base,
        ranked: Vec<PlanJob>,
        moment: u64,
        counts: Vec<usize>,
    ) -> Result<Planned, Memory>
        requires nodes { All (IsOnRooms base.rooms) ranked.items }
        requires placements { plan_of base ranked.items moment
            ≡ plan_of self.now.base self.now.ranked self.now.moment }
        requires counts { AreCounted base ranked.items moment (length ranked.items) counts.items }
        ensures { IfOk result (λ planned. planned
            ≡ record { base = base; ranked = ranked.items; moment = moment }) }
    {
        let placements = copy_placements(alloc, self.placements.as_slice())?;
        Ok(Planned {
            base,
            ranked,
            moment,
            placements,
            counts,
        })
    }

    /// What it began with.
    pub fn base(&self) -> &Base
        ensures { result.now ≡ self.now.base }
    {
        &self.base
    }

    /// The jobs, the highest first.
    pub fn ranked(&self) -> &[PlanJob]
        ensures value { result.now ≡ self.now.ranked }
        ensures nodes { All (IsOnRooms self.now.base.rooms) result.now }
    {
        self.ranked.as_slice()
    }

    /// The moment that it was made at.
    pub fn now(&self) -> u64
        ensures { result ≡ self.now.moment }
    {
        self.moment
    }
}

/// The plan of the ranked jobs at this moment: each, the highest first, begins at the least second from `now` to the
/// horizon at which some set of its nodes fits, beside the base's holds and what the jobs above it hold. So at no
/// second is more held than there is, and what begins now fits beside what the base holds. It counts a step for each
/// job, and after want of memory at most that many.
pub fn plan<L>(
    alloc: Global,
    base: Base,
    ranked: Vec<PlanJob>,
    now: u64,
    steps: &mut Steps<L>,
) -> Result<Planned, Memory>
    requires nodes { All (λ (job : AJob). All (λ node. node < length base.rooms) job.nodes) ranked.items }
    ensures parts { IfOk result (λ planned. planned ≡ record { base = base; ranked = ranked.items; moment = now }) }
    ensures jobs { OnOk result (All IsPlannable ranked.items) }
    ensures within { OnOk result (AreWithin base.rooms (base.holds ++ plan_holds_of base ranked.items now)) }
    ensures starts_fit { OnOk result (StartsFit base (plan_of base ranked.items now) now) }
    ensures apart { OnOk result
        (All (λ (placed : Placed). AreParts base.rooms placed.parts) (plan_of base ranked.items now)) }
    ensures steps { OnOk result (steps.new ≡ ticked steps.old (length ranked.items)) }
    ensures steps_err { OnErr result (IsTickedUpTo (length ranked.items) steps.old steps.new) }
{
    let jobs = ranked.len();
    let mut planning = Planning::new(alloc, base, ranked, now)?;
    for _ in 0..jobs {
        planning = planning.place_next(alloc, now, steps)?;
    }
    Ok(planning.finish())
}
