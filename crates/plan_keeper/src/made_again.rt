//! An old plan made again up to a place of its list, by the placements that it has: so it is known what it held there.

ghost use Rattle.std.specs.Prelude.{◌≡◌, ◌≤◌, ◌<◌, ◌+◌, length, option_copied, IfOk};

use backfill_planner::{Placed, PlanJob, Planned, Planning};
use small_texts::memory_error::Memory;
use std::alloc::Global;

// Equal jobs, in their order.
fn copy_jobs(alloc: Global, jobs: &[PlanJob]) -> Result<Vec<PlanJob>, Memory>
    ensures { IfOk result (λ copies. copies.items ≡ jobs.now) }
{
    let mut copies = Vec::with_capacity(alloc, jobs.len())?;
    for job in jobs {
        copies.push(job.copy()?)?;
    }
    Ok(copies)
}

// An equal placement, or none where there is none.
fn copy_placement(alloc: Global, placed: Option<&Placed>) -> Result<Option<Placed>, Memory>
    ensures { IfOk result (λ copy. copy ≡ option_copied placed.entry) }
{
    match placed {
        Some(placed) => Ok(Some(placed.copy(alloc)?)),
        None => Ok(None),
    }
}

/// One job more of the old plan is planned again.
pub fn settle_again(
    alloc: Global,
    old: &Planned,
    then: Planning,
    place: usize,
) -> Result<Planning, Memory>
    requires there { place < length old.now.ranked }
    requires is { then ≡ record { base = old.now.base; ranked = old.now.ranked; moment = old.now.moment; done = place } }
    ensures { IfOk result (λ next. next
        ≡ record { base = old.now.base; ranked = old.now.ranked; moment = old.now.moment; done = place + 1 }) }
{
    let placed = copy_placement(alloc, old.placement_of(place))?;
    then.settle_next(placed)
}

/// The old plan up to a place. Linear in its jobs, in the nodes and holds of its base, and in the parts of the jobs before
/// the place.
pub fn made_again(alloc: Global, old: &Planned, place: usize) -> Result<Planning, Memory>
    requires { place ≤ length old.now.ranked }
    ensures { IfOk result (λ then. then
        ≡ record { base = old.now.base; ranked = old.now.ranked; moment = old.now.moment; done = place }) }
{
    let base = old.base().copy(alloc)?;
    let ranked = copy_jobs(alloc, old.ranked())?;
    let mut then = Planning::new(alloc, base, ranked, old.now())?;
    for index in 0..place {
        then = settle_again(alloc, old, then, index)?;
    }
    Ok(then)
}
