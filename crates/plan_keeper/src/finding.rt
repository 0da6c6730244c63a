//! The placement of the next job: as it was in an older plan, or by a search.

ghost use Rattle.std.specs.Prelude.{◌≡◌, ◌≤◌, ◌<◌, ℕ, length, None, IfOk};
ghost use Rattle.resource_profile.specs.Counts.{ticked};
ghost use Rattle.plan_keeper.specs.Planner.{PlannerLaws};
ghost use Rattle.plan_keeper.specs.Turns.{IsNext, IsFoundAgain, IsSteppedAgain, StandsAgain};

use backfill_planner::{Placed, Planned, Planning};
use resource_profile::Steps;
use small_texts::memory_error::Memory;
use std::alloc::Global;

/// A job's placement, and its place in the old list where it is the same as then.
#[derive(Drop)]
pub struct Found {
    pub placed: Option<Placed>,
    pub before: Option<usize>,
}

/// The next job is placed by a search.
pub fn find_anew<L>(
    alloc: Global,
    planning: &Planning,
    now: u64,
    steps: &mut Steps<L>,
) -> Result<Found, Memory>
    requires more { planning.now.done < length planning.now.ranked }
    requires now { now ≡ planning.now.moment }
    ensures placed { IfOk result (λ found. IsNext planning.now found.placed) }
    ensures before { IfOk result (λ found. found.before ≡ None) }
    ensures steps { steps.new ≡ ticked steps.old 1 }
{
    let placed = planning.search_next(alloc, now, steps)?;
    Ok(Found {
        placed,
        before: None,
    })
}

/// The next job stands as it stood at a place of the old list, or is searched for where it can't.
pub fn find_again<L>(
    alloc: Global,
    old: &Planned,
    before: usize,
    planning: &Planning,
    now: u64,
    steps: &mut Steps<L>,
) -> Result<Found, Memory>
    requires laws { PlannerLaws }
    requires more { planning.now.done < length planning.now.ranked }
    requires now { now ≡ planning.now.moment }
    requires later { old.now.moment ≤ now }
    requires stands { StandsAgain old.now planning.now before }
    ensures placed { IfOk result (λ found. IsNext planning.now found.placed) }
    ensures before { IfOk result (λ found. IsFoundAgain old.now planning.now before found.before) }
    ensures steps { IsSteppedAgain old.now planning.now before steps.old steps.new }
{
    let horizon = planning.base().horizon;
    let last = old.base().horizon;
    match old.placement_of(before) {
        Some(placed) => {
            if now <= placed.start && placed.start <= horizon {
                let placed = placed.copy(alloc)?;
                return Ok(Found {
                    placed: Some(placed),
                    before: Some(before),
                });
            }
            find_anew(alloc, planning, now, steps)
        }
        None => {
            if horizon <= last {
                return Ok(Found {
                    placed: None,
                    before: Some(before),
                });
            }
            let placed = planning.search_next(alloc, last + 1, steps)?;
            let before = if placed.is_none() { Some(before) } else { None };
            Ok(Found { placed, before })
        }
    }
}
