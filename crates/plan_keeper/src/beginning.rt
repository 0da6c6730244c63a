//! The jobs with which both lists begin: as long as each job of the new list is the one at its place in the old list, how
//! often a node is among those of the jobs above needn't be counted, and what a job that moves has changed is known.

ghost use Rattle.std.specs.Prelude.{◌≡◌, ◌≤◌, ◌<◌, ◌+◌, length, slice_index_or, IfOk, OnErr};
ghost use Rattle.backfill_planner.specs.declared.job.PlanJob.{PlanJob as AJob};
ghost use Rattle.plan_keeper.specs.Steady.{IsSameFrom};
ghost use Rattle.plan_keeper.specs.Kept.{HasBegun};
ghost use Rattle.plan_keeper.specs.Turns.{IsStepped, HasStepped};

use crate::kept::Kept;
use crate::same_job::is_same_from;
use crate::same_nodes;
use crate::staying::settle_there;
use backfill_planner::{Planned, Planning};
use resource_profile::{Profile, Steps};
use small_texts::memory_error::Memory;
use std::alloc::Global;

/// The beginning of a plan over an older one.
#[derive(Drop)]
pub struct Beginning {
    pub planning: Planning,
    /// How many jobs are planned.
    pub first: usize,
    /// What is kept in mind of the nodes.
    pub kept: Kept,
}

// What is kept in mind before the first job.
fn first_kept(alloc: Global, old: &Planned, planning: &Planning, now: u64) -> Result<Kept, Memory>
    requires none { planning.now.done ≡ 0 }
    requires now { now ≡ planning.now.moment }
    ensures { IfOk result (λ kept.
        HasBegun old.now planning.now kept.same.seconds.items kept.no_freer.seconds.items) }
{
    let base = old.base();
    let before = Profile::with_holds(alloc, base.rooms.as_slice(), base.holds.as_slice())?;
    let rooms = planning.base().rooms.as_slice();
    let kept = same_nodes::first_kept(
        alloc,
        &before,
        base.rooms.as_slice(),
        planning.profile(),
        rooms,
        now,
    )?;
    Ok(kept)
}

// The next job, which is the one at its place in the old list, gets its placement.
fn turn<L>(
    alloc: Global,
    old: &Planned,
    begun: Beginning,
    now: u64,
    steps: &mut Steps<L>,
) -> Result<Beginning, Memory>
    requires first { begun.first ≡ begun.planning.done }
    requires there { begun.planning.done < length old.now.ranked }
    requires more { begun.planning.done < length begun.planning.ranked }
    requires is { (d : AJob) → IsSameFrom begun.planning.moment
        (slice_index_or old.now.ranked begun.planning.done d)
        (slice_index_or begun.planning.ranked begun.planning.done d) }
    requires now { now ≡ begun.planning.moment }
    requires later { old.now.moment ≤ now }
    requires begun { HasBegun old.now begun.planning
        begun.kept.same.seconds.items begun.kept.no_freer.seconds.items }
    ensures first { IfOk result (λ next. next.first ≡ begun.first + 1) }
    ensures next { IfOk result (λ next. next.planning ≡ record begun.planning { done = begun.planning.done + 1 }) }
    ensures begun { IfOk result (λ next.
        HasBegun old.now next.planning next.kept.same.seconds.items next.kept.no_freer.seconds.items) }
    ensures steps { IsStepped old.now begun.planning steps.old steps.new }
{
    let Beginning {
        planning,
        first,
        mut kept,
    } = begun;
    let planning = settle_there(alloc, old, first, &mut kept, planning, first, now, steps)?;
    Ok(Beginning {
        planning,
        first: first + 1,
        kept,
    })
}

/// Plans the jobs with which both lists begin. Linear in their nodes and times, where times differ in the nodes for each
/// time, and in the holds of both bases.
pub fn begin<L>(
    alloc: Global,
    old: &Planned,
    planning: Planning,
    now: u64,
    steps: &mut Steps<L>,
) -> Result<Beginning, Memory>
    requires none { planning.done ≡ 0 }
    requires now { now ≡ planning.moment }
    requires later { old.now.moment ≤ now }
    ensures parts { IfOk result (λ begun. begun.planning ≡ record planning { done = begun.first }) }
    ensures begun { IfOk result (λ begun. HasBegun old.now begun.planning
        begun.kept.same.seconds.items begun.kept.no_freer.seconds.items) }
    ensures steps { IfOk result (λ begun. HasStepped old.now planning.base planning.ranked planning.moment
        begun.first steps.old steps.new) }
    ensures steps_err { OnErr result (HasStepped old.now planning.base planning.ranked planning.moment
        (length planning.ranked) steps.old steps.new) }
{
    let jobs = old.ranked().len().min(planning.ranked().len());
    let kept = first_kept(alloc, old, &planning, now)?;
    let mut begun = Beginning {
        planning,
        first: 0,
        kept,
    };
    for index in 0..jobs {
        if !is_same_from(&old.ranked()[index], &begun.planning.ranked()[index], now) {
            return Ok(begun);
        }
        begun = turn(alloc, old, begun, now, steps)?;
    }
    Ok(begun)
}
