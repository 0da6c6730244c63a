//! Who goes for the highest of the candidates that a pass couldn't start.

ghost use Rattle.std.specs.Prelude.{◌≡◌, ◌≤◌, ◌++◌, ℕ, not, nat_eq, All, IfOk, IfSome, OnOk, filter, find, flat_map, map, unwrap_or, option_copied};
ghost use Rattle.std.specs.HashSet.{contains};
ghost use Rattle.std.specs.List.{list_any};
ghost use Rattle.backfill_planner.specs.declared.job.PlanJob.{PlanJob as AsJob};
ghost use Rattle.backfill_planner.specs.declared.Placed.{Placed as APlaced};
ghost use Rattle.backfill_planner.specs.Placements.{IsOnRooms};
ghost use Rattle.job_table.specs.declared.record.JobRecord.{JobRecord as AJob};
ghost use Rattle.resource_profile.specs.Profiles.{AreWithin};
ghost use Rattle.run_limits.specs.Tallies.{Shows};
ghost use Rattle.ctl_state.specs.Counted.{holding};
ghost use Rattle.ctl_state.specs.Planning.{room_of};
ghost use Rattle.ctl_state.specs.Soundness.{IsSound};
ghost use Rattle.ctl_state.specs.State.{state_of, last_moment};
ghost use Rattle.ctl_waiting.specs.Measured.{IsMeasured};
ghost use Rattle.ctl_pass.specs.Awaiting.{placements_of};
ghost use Rattle.ctl_pass.specs.Inputs.{input_of};
ghost use Rattle.ctl_pass.specs.Limits;
ghost use Rattle.ctl_pass.specs.Outcome.{outcome, placements_due};
ghost use Rattle.ctl_pass.specs.Preempting;

use crate::base::push_holds;
use crate::laws::what_stays_held_fits;
use crate::naming::preempts_at_all;
use crate::preemptable::{Preemptable, is_preemptable, lowest_first, runs_on};
use crate::split::may_start;
use crate::starts::DueStart;
use backfill_planner::{Base, Placed, PlanJob, Planned, victims};
use ctl_state::cluster::Cluster;
use ctl_state::laws::a_stable_sort_makes_the_order;
use ctl_state::planning::rooms_of;
use ctl_waiting::{Factors, measure};
use job_table::laws::who_is_awaited_stays;
use job_table::record::JobRecord;
use plain_data::items::Items;
use plain_data::limit::Limit;
use plain_data::seconds::FOREVER;
use resource_profile::Hold;
use run_limits::tally::Tally;
use small_texts::memory_error::Memory;
use std::alloc::Global;
use std::collections::HashSet;

// What each of these jobs holds.
fn holds_of_each(alloc: Global, now: u64, going: &[Preemptable]) -> Result<Vec<Items<Hold>>, Memory>
    requires started { All (λ one. unwrap_or one.job.now.started 0 ≤ last_moment) going.now }
    requires in_time { now ≤ last_moment }
    ensures { IfOk result (λ holds. holds.items ≡ map (λ one. Limits.holds_of_job now one.job.now) going.now) }
{
    let mut all = Vec::with_capacity(alloc, going.len())?;
    for one in going {
        let mut holds = Vec::new(alloc);
        push_holds(now, one.job, &mut holds)?;
        all.push(Items::from_vec(holds))?;
    }
    Ok(all)
}

// What those jobs hold that run on and can't go for this one.
fn staying(
    alloc: Global,
    cluster: &Cluster,
    factors: &Factors,
    high: &JobRecord,
) -> Result<Vec<Hold>, Memory>
    requires measured { IsMeasured (state_of cluster.now) factors.now }
    requires started { All (λ (job : AJob). unwrap_or job.started 0 ≤ last_moment) cluster.now.jobs.records }
    requires in_time { factors.now.moment ≤ last_moment }
    ensures { IfOk result (λ holds. holds.items ≡ flat_map (Limits.holds_of_job factors.now.moment)
        (filter (Preempting.stays (state_of cluster.now) factors.now.moment high.now) cluster.now.jobs.records)) }
{
    let mut holds = Vec::new(alloc);
    for job in cluster.jobs.records() {
        if runs_on(factors.moment, job) && !is_preemptable(cluster, factors, high, job) {
            push_holds(factors.moment, job, &mut holds)?;
        }
    }
    Ok(holds)
}

// When a job of this limit reaches it that starts at the second.
fn limit_end(limit: &Limit, start: u64) -> u64
    requires { start ≤ last_moment }
    ensures { result ≡ Limits.limit_end limit.now start }
{
    match limit {
        Limit::Minutes(minutes) => start + minutes.get() * 60,
        Limit::Unlimited => FOREVER,
    }
}

// Adds what a job of this limit holds that starts as it is placed.
fn push_placed(limit: &Limit, placed: &Placed, holds: &mut Vec<Hold>) -> Result<(), Memory>
    requires { placed.now.start ≤ last_moment }
    ensures { OnOk result (holds.new.items ≡ holds.old.items ++ Preempting.placed_holds limit.now placed.now) }
{
    let until = limit_end(limit, placed.start);
    for share in placed.parts.as_slice() {
        holds.push(Hold {
            node: share.node,
            from: placed.start,
            until,
            cpus: share.cpus,
            mem: share.mem,
        })?;
    }
    Ok(())
}

// Adds what those hold that the pass starts.
fn push_starts(cluster: &Cluster, starts: &[DueStart], holds: &mut Vec<Hold>) -> Result<(), Memory>
    requires { All (λ (placed : APlaced). placed.start ≤ last_moment) (placements_of starts.now) }
    ensures { OnOk result (holds.new.items ≡ holds.old.items
        ++ flat_map (Preempting.start_holds cluster.now.jobs.records) (placements_of starts.now)) }
{
    for start in starts {
        if let Some(job) = cluster.jobs.get(start.placed.id) {
            push_placed(&job.limit, &start.placed, holds)?;
        }
    }
    Ok(())
}

// The nodes beside what stays held in any case.
fn base_beside(
    alloc: Global,
    cluster: &Cluster,
    factors: &Factors,
    high: &JobRecord,
    starts: &[DueStart],
) -> Result<Base, Memory>
    requires measured { IsMeasured (state_of cluster.now) factors.now }
    requires started { All (λ (job : AJob). unwrap_or job.started 0 ≤ last_moment) cluster.now.jobs.records }
    requires in_time { factors.now.moment ≤ last_moment }
    requires due { All (λ (placed : APlaced). placed.start ≤ last_moment) (placements_of starts.now) }
    requires starts { placements_of starts.now ≡ placements_due (state_of cluster.now) factors.now.moment }
    requires within { AreWithin (map room_of cluster.now.nodes.records)
        (Preempting.staying_holds (state_of cluster.now) factors.now.moment high.now) }
    ensures rooms { IfOk result (λ base. base.rooms ≡ map room_of cluster.now.nodes.records) }
    ensures holds { IfOk result (λ base. base.holds
        ≡ Preempting.staying_holds (state_of cluster.now) factors.now.moment high.now) }
{
    let mut holds = staying(alloc, cluster, factors, high)?;
    push_starts(cluster, starts, &mut holds)?;
    let rooms = rooms_of(alloc, cluster.nodes.records())?;
    Ok(Base {
        rooms: Items::from_vec(rooms),
        holds: Items::from_vec(holds),
        horizon: factors.moment,
    })
}

// The numbers of the jobs at these places.
fn ids_at(alloc: Global, going: &[Preemptable], places: &[u32]) -> Result<Vec<u32>, Memory>
    ensures { IfOk result (λ ids. ids.items ≡ Preempting.ids_at (map (λ one. one.job.now) going.now) places.now) }
{
    let mut ids = Vec::with_capacity(alloc, places.len())?;
    for place in places {
        if let Some(one) = going.get(*place as usize) {
            ids.push(one.job.id)?;
        }
    }
    Ok(ids)
}

// The numbers of the jobs that go for this one.
#[tactic(auto, unfolding(crate::specs::Preempting::gone_for, crate::specs::Preempting::places_gone))]
fn gone_for(
    alloc: Global,
    cluster: &Cluster,
    factors: &Factors,
    need: &PlanJob,
    high: &JobRecord,
    starts: &[DueStart],
) -> Result<Vec<u32>, Memory>
    requires sound { IsSound (state_of cluster.now) }
    requires raised { cluster.now.moment ≤ factors.now.moment }
    requires in_time { factors.now.moment ≤ last_moment }
    requires measured { IsMeasured (state_of cluster.now) factors.now }
    requires starts { placements_of starts.now ≡ placements_due (state_of cluster.now) factors.now.moment }
    requires nodes { IsOnRooms (map room_of cluster.now.nodes.records) need.now }
    ensures { IfOk result (λ gone. gone.items
        ≡ Preempting.gone_for (state_of cluster.now) factors.now.moment need.now high.now) }
{
    what_stays_held_fits();
    a_stable_sort_makes_the_order::<JobRecord>();
    let going = lowest_first(alloc, cluster, factors, high)?;
    let base = base_beside(alloc, cluster, factors, high, starts)?;
    let holds = holds_of_each(alloc, factors.moment, &going)?;
    match victims(alloc, need, &base, &holds, factors.moment)? {
        Some(places) => ids_at(alloc, &going, &places),
        None => Ok(Vec::new(alloc)),
    }
}

// The numbers of the jobs that start.
fn started_ids(alloc: Global, starts: &[DueStart]) -> Result<HashSet<u32>, Memory>
    ensures { IfOk result (λ ids. (id : ℕ)
        → contains nat_eq ids id ≡ list_any (λ (placed : APlaced). nat_eq placed.id id) (placements_of starts.now)) }
{
    let mut ids = HashSet::new(alloc);
    for start in starts {
        ids.insert(start.placed.id)?;
    }
    Ok(ids)
}

// What the highest of those candidates needs that don't start.
fn first_waiting<'a>(
    alloc: Global,
    ranked: &'a [PlanJob],
    starts: &[DueStart],
) -> Result<Option<&'a PlanJob>, Memory>
    ensures { IfOk result (λ need. option_copied need
        ≡ find (λ job. not (Preempting.is_among (placements_of starts.now) job)) ranked.now) }
{
    let started = started_ids(alloc, starts)?;
    for need in ranked {
        if !started.contains(&need.id) {
            return Ok(Some(need));
        }
    }
    Ok(None)
}

// What the highest of the candidates needs that don't start, where others may go for it.
#[tactic(auto, unfolding(crate::specs::Preempting::preemptor, crate::specs::Preempting::first_waiting))]
fn preemptor<'a>(
    alloc: Global,
    cluster: &Cluster,
    now: u64,
    tally: &Tally,
    planned: &'a Planned,
    starts: &[DueStart],
) -> Result<Option<&'a PlanJob>, Memory>
    requires sound { IsSound (state_of cluster.now) }
    requires raised { cluster.now.moment ≤ now }
    requires in_time { now ≤ last_moment }
    requires counted { Shows cluster.now.assocs.records tally.now (holding (outcome (state_of cluster.now) now).jobs) }
    requires planned { planned.now ≡ input_of (state_of cluster.now) now }
    requires starts { placements_of starts.now ≡ placements_due (state_of cluster.now) now }
    ensures need { IfOk result (λ need. option_copied need ≡ Preempting.preemptor (state_of cluster.now) now) }
    ensures nodes { IfOk result (λ need. IfSome (option_copied need) (λ (job : AsJob).
        IsOnRooms (map room_of cluster.now.nodes.records) job)) }
{
    who_is_awaited_stays();
    a_stable_sort_makes_the_order::<JobRecord>();
    if !preempts_at_all(&cluster.settings) {
        return Ok(None);
    }
    let Some(need) = first_waiting(alloc, planned.ranked(), starts)? else {
        return Ok(None);
    };
    if may_start(cluster, tally, need.id) {
        Ok(Some(need))
    } else {
        Ok(None)
    }
}

/// The numbers of the jobs that go for the highest of the candidates that don't start, the lowest in rank first, where the
/// jobs that hold processors once the others have started are counted. Where preemption is on and a candidate doesn't
/// start, it finds once more what priorities rest on, walks over the jobs and sorts those that might go by rank; then it
/// costs what `backfill_planner::victims` does.
#[tactic(auto, unfolding(crate::specs::Preempting::victims_in))]
pub(crate) fn find_victims(
    alloc: Global,
    cluster: &Cluster,
    now: u64,
    tally: &Tally,
    planned: &Planned,
    starts: &[DueStart],
) -> Result<Vec<u32>, Memory>
    requires sound { IsSound (state_of cluster.now) }
    requires raised { cluster.now.moment ≤ now }
    requires in_time { now ≤ last_moment }
    requires counted { Shows cluster.now.assocs.records tally.now (holding (outcome (state_of cluster.now) now).jobs) }
    requires planned { planned.now ≡ input_of (state_of cluster.now) now }
    requires starts { placements_of starts.now ≡ placements_due (state_of cluster.now) now }
    ensures { IfOk result (λ gone. gone.items ≡ Preempting.victims_in (state_of cluster.now) now) }
{
    let Some(need) = preemptor(alloc, cluster, now, tally, planned, starts)? else {
        return Ok(Vec::new(alloc));
    };
    let Some(high) = cluster.jobs.get(need.id) else {
        return Ok(Vec::new(alloc));
    };
    let factors = measure(alloc, cluster, now)?;
    gone_for(alloc, cluster, &factors, need, high, starts)
}
