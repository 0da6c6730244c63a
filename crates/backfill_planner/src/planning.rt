ghost use Rattle.std.specs.Prelude.{◌≡◌, ◌≢◌, ℕ, ◌≤◌, ◌<◌, ◌+◌, ◌-◌, ◌^◌, ◌++◌, length, Some, slice_index_or, IfOk, OnOk, All, AllPairs, List};
ghost use Rattle.std.specs.List.Sorted.{IsPermutation};
ghost use Rattle.resource_profile.specs.Counts.{ticked};
ghost use Rattle.resource_profile.specs.Profiles.{AreWithin, HasFree};
ghost use Rattle.resource_profile.specs.declared.Hold.{Hold};
ghost use Rattle.resource_profile.specs.declared.NodeRoom.{NodeRoom as Room};
ghost use Rattle.backfill_planner.specs.declared.Placed.{Placed};
ghost use Rattle.backfill_planner.specs.declared.job.PlanJob.{PlanJob as AJob};
ghost use Rattle.backfill_planner.specs.Lesser.{NoneBefore};
ghost use Rattle.backfill_planner.specs.Placements.{IsPlannable, IsOnRooms, AreParts, StartsFit};
ghost use Rattle.backfill_planner.specs.Plans.{holds_of, holds_before, placed_of, placement_of, plan_of, plan_holds_of};
ghost use Rattle.backfill_planner.specs.Searches.{IsSeen};
ghost use Rattle.backfill_planner.specs.Searches as spec;
ghost use Rattle.backfill_planner.specs.declared.seen.Seen.{Seen as OneSeen};

use crate::Placed;
use crate::base::Base;
use crate::job::PlanJob;
use crate::laws::lower_laws;
use crate::placing::{next_second, place, window_end};
use crate::planned::Planned;
use crate::seen::Searches;
use plain_data::seconds::LAST_START;
use resource_profile::{Hold, Profile, Steps};
use small_texts::memory_error::Memory;
use std::alloc::Global;
use std::marker::Model;

/// A plan in the making: the first jobs of the list are planned, each beside those before it.
#[derive(Drop)]
pub struct Planning {
    base: Base,
    ranked: Vec<PlanJob>,
    moment: u64,
    done: usize,
    placements: Vec<Placed>,
    // How many placements the first jobs have, for each number of these from 0 to `done`.
    counts: Vec<usize>,
    // What the base and the planned jobs hold.
    profile: Profile,
    searches: Searches,
}

impl Model for Planning {
    ghost use Rattle.backfill_planner.specs.Plans.{PlanningView};
    ghost use Rattle.backfill_planner.specs.Making.{IsPlanning};

    ghost Value = { PlanningView };

    ghost view = { λ planning. record {
      base = planning.base;
      ranked = planning.ranked.items;
      moment = planning.moment;
      done = planning.done;
    } };

    ghost invariant = { λ planning. IsPlanning planning.base planning.ranked.items planning.moment planning.done
        planning.placements.items planning.counts.items planning.profile planning.searches.seen.items };
}

// Adds to the profile what the placed job holds.
fn hold(profile: &mut Profile, job: &PlanJob, placed: &Placed) -> Result<(), Memory>
    requires start { placed.now.start ≤ LAST_START }
    requires free { All (HasFree profile.old.rooms profile.old.holds) (holds_of job.now (Some placed.now)) }
    requires apart { AllPairs (λ (one other : Hold). one.node ≢ other.node) (holds_of job.now (Some placed.now)) }
    ensures rooms { profile.new.rooms ≡ profile.old.rooms }
    ensures holds { OnOk result
        (IsPermutation (profile.old.holds ++ holds_of job.now (Some placed.now)) profile.new.holds) }
{
    let until = window_end(job, placed.start);
    for share in placed.parts.as_slice() {
        profile.hold(&Hold {
            node: share.node,
            from: placed.start,
            until,
            cpus: share.cpus,
            mem: share.mem,
        })?;
    }
    Ok(())
}

// The second before which no set fits of the job that has this placement, or none.
fn bound_of(placed: &Option<Placed>, horizon: u64) -> u64
    requires { horizon < 2 ^ 64 - 1 }
    ensures { result ≡ spec.bound_of placed.now horizon }
{
    match placed {
        Some(placed) => placed.start,
        None => horizon + 1,
    }
}

// The second at which a search has to begin where none of the job's sets fits from `now` on and before `lo`: while no
// hold ends, nor one of the job's barred times, none comes to fit.
fn search_from(profile: &Profile, job: &PlanJob, now: u64, lo: u64, horizon: u64) -> u64
    requires last { horizon ≤ LAST_START }
    ensures later { lo ≤ result }
    ensures none { (rooms : List Room) → NoneBefore rooms profile.now.holds job.now now lo
        → NoneBefore rooms profile.now.holds job.now now result }
{
    lower_laws();
    if lo <= now || horizon < lo {
        return lo;
    }
    let _ = window_end(job, lo - 1);
    next_second(profile, job, lo - 1, horizon + 1)
}

// The second at which a search may begin where none of the job's sets fits before `from`. Where none comes to fit up to
// the horizon, the searches before aren't looked at.
fn shown_from(
    profile: &Profile,
    base: &Base,
    searches: &Searches,
    ranked: &[PlanJob],
    job: &PlanJob,
    now: u64,
    from: u64,
) -> u64
    requires there { All (λ (one : OneSeen). one.place < length ranked.now) searches.now.seen.items }
    requires alike { All (λ (one : OneSeen). one.alike < length ranked.now) searches.now.seen.items }
    ensures later { now ≤ result }
    ensures none { (rooms : List Room) → All (IsSeen rooms profile.now.holds ranked.now now) searches.now.seen.items
        → NoneBefore rooms profile.now.holds job.now now from
        → NoneBefore rooms profile.now.holds job.now now result }
{
    let horizon = base.horizon;
    let begin = search_from(profile, job, now, from, horizon).max(now);
    if horizon < begin {
        return begin;
    }
    searches.bound(ranked, job, now).max(begin)
}

// The placement of the job, where it is known that none of its sets fits from `now` on and before `lo`.
fn search<L>(
    alloc: Global,
    profile: &Profile,
    base: &Base,
    job: &PlanJob,
    now: u64,
    lo: u64,
    steps: &mut Steps<L>,
) -> Result<Option<Placed>, Memory>
    requires rooms { profile.now.rooms ≡ base.now.rooms }
    requires nodes { All (λ node. node < length base.now.rooms) job.now.nodes }
    requires order { now ≤ lo }
    ensures placed { IfOk result (λ placed. NoneBefore base.now.rooms profile.now.holds job.now now lo
        → placed ≡ placed_of base.now.rooms profile.now.holds job.now now base.now.horizon) }
    ensures steps { steps.new ≡ ticked steps.old 1 }
{
    let horizon = base.horizon;
    let from = search_from(profile, job, now, lo, horizon);
    let placed = place(alloc, profile, base, job, from, horizon, steps)?;
    Ok(placed)
}

impl Planning {
    /// None of the jobs is planned yet. Linear in the nodes and the holds of the base.
    pub fn new(
        alloc: Global,
        base: Base,
        ranked: Vec<PlanJob>,
        now: u64,
    ) -> Result<Planning, Memory>
        requires nodes { All (IsOnRooms base.rooms) ranked.items }
        ensures { IfOk result (λ planning. planning
            ≡ record { base = base; ranked = ranked.items; moment = now; done = 0 }) }
    {
        let profile = Profile::with_holds(alloc, base.rooms.as_slice(), base.holds.as_slice())?;
        let placements = Vec::with_capacity(alloc, ranked.len())?;
        let mut counts = Vec::new(alloc);
        counts.push(0)?;
        let searches = Searches::new(alloc)?;
        Ok(Planning {
            base,
            ranked,
            moment: now,
            done: 0,
            placements,
            counts,
            profile,
            searches,
        })
    }

    /// What it began with.
    pub fn base(&self) -> &Base
        ensures { result.now ≡ self.now.base }
    {
        &self.base
    }

    /// The jobs, the highest first.
    pub fn ranked(&self) -> &[PlanJob]
        ensures value { result.now ≡ self.now.ranked }
        ensures nodes { All (IsOnRooms self.now.base.rooms) result.now }
    {
        self.ranked.as_slice()
    }

    /// What the base and the planned jobs hold, in some order.
    pub fn profile(&self) -> &Profile
        ensures rooms { result.now.rooms ≡ self.now.base.rooms }
        ensures holds { IsPermutation (holds_before self.now.base self.now.ranked self.now.moment self.now.done)
            result.now.holds }
    {
        &self.profile
    }

    /// The next job gets the placement that is known to be its own, or none where none is.
    pub fn settle_next(self, placed: Option<Placed>) -> Result<Planning, Memory>
        requires more { self.done < length self.ranked }
        requires placed { (d : AJob) → placed ≡ placement_of self.base self.ranked self.moment self.done
            (slice_index_or self.ranked self.done d) }
        ensures { IfOk result (λ next. next ≡ record self { done = self.done + 1 }) }
    {
        lower_laws();
        let Planning {
            base,
            ranked,
            moment,
            done,
            mut placements,
            mut counts,
            mut profile,
            searches,
        } = self;
        let job = &ranked[done];
        job.tell_plannable();
        if let Some(placed) = placed {
            hold(&mut profile, job, &placed)?;
            placements.push(placed)?;
        }
        counts.push(placements.len())?;
        Ok(Planning {
            base,
            ranked,
            moment,
            done: done + 1,
            placements,
            counts,
            profile,
            searches,
        })
    }

    /// The same for a placement that a search has found: it is kept in mind for the jobs that ask no less.
    pub fn settle_searched(self, placed: Option<Placed>) -> Result<Planning, Memory>
        requires more { self.done < length self.ranked }
        requires placed { (d : AJob) → placed ≡ placement_of self.base self.ranked self.moment self.done
            (slice_index_or self.ranked self.done d) }
        ensures { IfOk result (λ next. next ≡ record self { done = self.done + 1 }) }
    {
        lower_laws();
        let Planning {
            base,
            ranked,
            moment,
            done,
            placements,
            counts,
            profile,
            mut searches,
        } = self;
        let bound = bound_of(&placed, base.horizon);
        searches.add(ranked.as_slice(), moment, done, bound)?;
        let planning = Planning {
            base,
            ranked,
            moment,
            done,
            placements,
            counts,
            profile,
            searches,
        };
        planning.settle_next(placed)
    }

    /// The placement of the next job, by a search. It is known that none of its sets fits before `from`, and the search
    /// begins where this, or one for a job before that asks no more, has shown that none fits before, and there at the
    /// next second at which a hold ends or a barred time. It counts a step.
    pub fn search_next<L>(
        &self,
        alloc: Global,
        from: u64,
        steps: &mut Steps<L>,
    ) -> Result<Option<Placed>, Memory>
        requires more { self.now.done < length self.now.ranked }
        requires none { (d : AJob) → NoneBefore self.now.base.rooms
            (holds_before self.now.base self.now.ranked self.now.moment self.now.done)
            (slice_index_or self.now.ranked self.now.done d) self.now.moment from }
        ensures placed { IfOk result (λ placed. (d : AJob)
            → placed ≡ placement_of self.now.base self.now.ranked self.now.moment self.now.done
            (slice_index_or self.now.ranked self.now.done d)) }
        ensures steps { steps.new ≡ ticked steps.old 1 }
    {
        let job = &self.ranked[self.done];
        let begin = shown_from(
            &self.profile,
            &self.base,
            &self.searches,
            self.ranked.as_slice(),
            job,
            self.moment,
            from,
        );
        let placed = search(
            alloc,
            &self.profile,
            &self.base,
            job,
            self.moment,
            begin,
            steps,
        )?;
        Ok(placed)
    }

    /// The next job begins at the least second to the horizon at which some set of its nodes fits, which none does before
    /// `from`. It counts a step.
    pub fn place_next<L>(
        self,
        alloc: Global,
        from: u64,
        steps: &mut Steps<L>,
    ) -> Result<Planning, Memory>
        requires more { self.done < length self.ranked }
        requires none { (d : AJob) → NoneBefore self.base.rooms
            (holds_before self.base self.ranked self.moment self.done)
            (slice_index_or self.ranked self.done d) self.moment from }
        ensures next { IfOk result (λ next. next ≡ record self { done = self.done + 1 }) }
        ensures steps { steps.new ≡ ticked steps.old 1 }
    {
        let placed = self.search_next(alloc, from, steps)?;
        self.settle_searched(placed)
    }

    /// The plan, once all jobs are planned.
    pub fn finish(self) -> Planned
        requires { self.done ≡ length self.ranked }
        ensures parts { result ≡ record { base = self.base; ranked = self.ranked; moment = self.moment } }
        ensures jobs { All IsPlannable self.ranked }
        ensures within { AreWithin self.base.rooms
            (self.base.holds ++ plan_holds_of self.base self.ranked self.moment) }
        ensures starts_fit { StartsFit self.base (plan_of self.base self.ranked self.moment) self.moment }
        ensures apart { All (λ (placed : Placed). AreParts self.base.rooms placed.parts)
            (plan_of self.base self.ranked self.moment) }
    {
        lower_laws();
        let Planning {
            base,
            ranked,
            moment,
            placements,
            counts,
            ..
        } = self;
        Planned::of(base, ranked, moment, placements, counts)
    }
}
