//! The placement of a job that is the one at a place of the old list: the one of then where as much is free of its
//! nodes, else by a search from where none can fit before.

ghost use Rattle.std.specs.Prelude.{◌≡◌, ◌↔◌, ◌≤◌, ◌<◌, ◌+◌, true, length, slice_index_or, option_copied, IfOk, OnOk, IfSome, IfNone, Some, All};
ghost use Rattle.backfill_planner.specs.Giving;
ghost use Rattle.backfill_planner.specs.Placements.{IsOnRooms};
ghost use Rattle.backfill_planner.specs.declared.job.PlanJob.{PlanJob as AJob};
ghost use Rattle.plan_keeper.specs.Kept.{AreKept, AreKeptTo, BeginsAt, CanStay, IsThere};
ghost use Rattle.plan_keeper.specs.Steady.{IsSameFrom};
ghost use Rattle.plan_keeper.specs.Turns.{IsNext, IsStepped};

use crate::kept::Kept;
use crate::laws::planner_laws;
use crate::node_seconds::NodeSeconds;
use crate::same_job::{tell_ends_in_time, tell_windows};
use backfill_planner::{Placed, PlanJob, Planned, Planning};
use plain_data::seconds::{FOREVER, LAST_START};
use resource_profile::Steps;
use small_texts::memory_error::Memory;
use std::alloc::Global;

/// Where the job's window ends that begins at `start`.
pub fn window_end(job: &PlanJob, start: u64) -> u64
    requires { start ≤ LAST_START }
    ensures { result ≡ Giving.window_end job.now start }
{
    match job.seconds {
        Some(seconds) => start + seconds.get(),
        None => FOREVER,
    }
}

// Whether the placement of then can stay.
fn can_stay(job: &PlanJob, placed: &Placed, same: &NodeSeconds, now: u64, horizon: u64) -> bool
    requires nodes { All (λ node. node < length same.now.seconds.items) job.now.nodes }
    requires low { horizon ≤ LAST_START }
    ensures { (result ≡ true) ↔ CanStay job.now placed.now same.now.seconds.items now horizon }
{
    now <= placed.start
        && placed.start <= horizon
        && same.reach(job.nodes.as_slice(), window_end(job, placed.start))
}

// The placement of then, if there is one and it can stay.
fn stay(
    alloc: Global,
    before: Option<&Placed>,
    job: &PlanJob,
    same: &NodeSeconds,
    now: u64,
    horizon: u64,
) -> Result<Option<Placed>, Memory>
    requires nodes { All (λ node. node < length same.now.seconds.items) job.now.nodes }
    requires low { horizon ≤ LAST_START }
    ensures some { IfOk result (λ found. IfSome found (λ placed. (option_copied before.entry ≡ Some placed)
        × CanStay job.now placed same.now.seconds.items now horizon)) }
    ensures none { IfOk result (λ found. IfNone found (IfSome (option_copied before.entry) (λ placed.
        ¬ CanStay job.now placed same.now.seconds.items now horizon))) }
{
    let Some(placed) = before else {
        return Ok(None);
    };
    if !can_stay(job, placed, same, now, horizon) {
        return Ok(None);
    }
    let placed = placed.copy(alloc)?;
    Ok(Some(placed))
}

// The second at which its search begins otherwise.
fn search_begin(
    before: Option<&Placed>,
    job: &PlanJob,
    no_freer: &NodeSeconds,
    now: u64,
    last: u64,
) -> u64
    requires nodes { All (λ node. node < length no_freer.now.seconds.items) job.now.nodes }
    requires low { last ≤ LAST_START }
    ensures { BeginsAt (option_copied before.entry) job.now no_freer.now.seconds.items now last result }
{
    let nodes = job.nodes.as_slice();
    match before {
        Some(placed) => {
            if placed.start <= LAST_START && no_freer.reach(nodes, window_end(job, placed.start)) {
                placed.start
            } else {
                now
            }
        }
        None => {
            if no_freer.reach(nodes, FOREVER) {
                last + 1
            } else {
                now
            }
        }
    }
}

/// The placement of a job, and whether it was searched for.
#[derive(Drop)]
pub struct There {
    pub placed: Option<Placed>,
    pub searched: bool,
}

// The placement of the next job, which is the one at this place of the old list.
fn find_there<L>(
    alloc: Global,
    old: &Planned,
    kept: &Kept,
    planning: &Planning,
    job: &PlanJob,
    place: usize,
    now: u64,
    steps: &mut Steps<L>,
) -> Result<There, Memory>
    requires now { now ≡ planning.now.moment }
    requires there { IsThere old.now planning.now place job.now }
    requires kept { AreKeptTo old.now planning.now place kept.now.same.seconds.items kept.now.no_freer.seconds.items }
    ensures placed { IfOk result (λ there. IsNext planning.now there.placed) }
    ensures steps { IsStepped old.now planning.now steps.old steps.new }
{
    planner_laws();
    let horizon = planning.base().horizon;
    let before = old.placement_of(place);
    if let Some(placed) = stay(alloc, before, job, &kept.same, now, horizon)? {
        return Ok(There {
            placed: Some(placed),
            searched: false,
        });
    }
    let begin = search_begin(before, job, &kept.no_freer, now, old.base().horizon);
    if horizon < begin {
        return Ok(There {
            placed: None,
            searched: false,
        });
    }
    let placed = planning.search_next(alloc, begin, steps)?;
    Ok(There {
        placed,
        searched: true,
    })
}

/// The next job gets its placement, which is kept in mind where a search has found it.
pub fn settle(planning: Planning, there: There) -> Result<Planning, Memory>
    requires more { planning.done < length planning.ranked }
    requires next { IsNext planning there.placed }
    ensures { IfOk result (λ next. next ≡ record planning { done = planning.done + 1 }) }
{
    if there.searched {
        planning.settle_searched(there.placed)
    } else {
        planning.settle_next(there.placed)
    }
}

// It does nothing: its contract tells that a plan's jobs are on its nodes, as its type has it.
fn tell_nodes(planned: &Planned)
    ensures { All (IsOnRooms planned.now.base.rooms) planned.now.ranked }
{
    let _ranked = planned.ranked();
}

/// The next job, which is the one at this place of the old list, gets its placement, and what is kept in mind goes on.
pub fn settle_there<L>(
    alloc: Global,
    old: &Planned,
    place: usize,
    kept: &mut Kept,
    planning: Planning,
    index: usize,
    now: u64,
    steps: &mut Steps<L>,
) -> Result<Planning, Memory>
    requires index { index ≡ planning.done }
    requires there { place < length old.now.ranked }
    requires more { planning.done < length planning.ranked }
    requires is { (d : AJob) → IsSameFrom planning.moment (slice_index_or old.now.ranked place d)
        (slice_index_or planning.ranked planning.done d) }
    requires now { now ≡ planning.moment }
    requires later { old.now.moment ≤ now }
    requires kept { AreKeptTo old.now planning place kept.old.same.seconds.items kept.old.no_freer.seconds.items }
    ensures next { IfOk result (λ next. next ≡ record planning { done = planning.done + 1 }) }
    ensures kept { OnOk result (AreKept old.now planning.base planning.ranked planning.moment (place + 1)
        (planning.done + 1) kept.new.same.seconds.items kept.new.no_freer.seconds.items) }
    ensures steps { IsStepped old.now planning steps.old steps.new }
{
    planner_laws();
    tell_nodes(old);
    let job = &planning.ranked()[index];
    tell_ends_in_time(job);
    tell_windows(job);
    let there = find_there(alloc, old, kept, &planning, job, place, now, steps)?;
    kept.go_on(old.placement_of(place), &there.placed);
    settle(planning, there)
}
