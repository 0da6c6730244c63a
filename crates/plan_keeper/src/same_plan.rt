//! A plan of what an older one was made of.

ghost use Rattle.std.specs.Prelude.{◌≡◌, ◌≤◌, ◌<◌, ◌↔◌, ◌++◌, length, true, IfOk, OnOk, All};
ghost use Rattle.plain_data.specs.declared.seconds.TheConstants.{LAST_START};
ghost use Rattle.resource_profile.specs.Profiles.{AreWithin};
ghost use Rattle.backfill_planner.specs.declared.Placed.{Placed};
ghost use Rattle.backfill_planner.specs.declared.job.PlanJob.{PlanJob as AJob};
ghost use Rattle.backfill_planner.specs.Placements.{IsPlannable, AreParts, StartsFit};
ghost use Rattle.backfill_planner.specs.Plans.{plan_of, plan_holds_of};
ghost use Rattle.plan_keeper.specs.Unmoved.{HasSamePlan};

use crate::same_job::is_same_job;
use backfill_planner::laws::{parts_are_apart, plans_stay_within, starts_fit};
use backfill_planner::{Base, PlanJob, Planned};
use resource_profile::{Hold, NodeRoom};
use small_texts::memory_error::Memory;
use std::alloc::Global;

// Whether these are one room.
fn is_same_room(one: &NodeRoom, other: &NodeRoom) -> bool
    ensures { (result ≡ true) ↔ (one.now ≡ other.now) }
{
    one == other
}

/// Whether these are the same rooms, in one order.
pub fn are_same_rooms(one: &[NodeRoom], other: &[NodeRoom]) -> bool
    ensures { (result ≡ true) ↔ (one.now ≡ other.now) }
{
    if one.len() != other.len() {
        return false;
    }
    for place in 0..one.len() {
        if !is_same_room(&one[place], &other[place]) {
            return false;
        }
    }
    true
}

// Whether these are one hold.
fn is_same_hold(one: &Hold, other: &Hold) -> bool
    ensures { (result ≡ true) ↔ (one.now ≡ other.now) }
{
    one == other
}

/// Whether these are the same holds, in one order.
pub fn are_same_holds(one: &[Hold], other: &[Hold]) -> bool
    ensures { (result ≡ true) ↔ (one.now ≡ other.now) }
{
    if one.len() != other.len() {
        return false;
    }
    for place in 0..one.len() {
        if !is_same_hold(&one[place], &other[place]) {
            return false;
        }
    }
    true
}

// Whether all that plans begin with is the same in both.
fn is_same_base(one: &Base, other: &Base) -> bool
    ensures { (result ≡ true) ↔ (one.now ≡ other.now) }
{
    one.horizon == other.horizon
        && are_same_rooms(one.rooms.as_slice(), other.rooms.as_slice())
        && are_same_holds(one.holds.as_slice(), other.holds.as_slice())
}

// Whether these are the same jobs, in one order.
fn are_same_jobs(one: &[PlanJob], other: &[PlanJob]) -> bool
    ensures { (result ≡ true) ↔ (one.now ≡ other.now) }
{
    if one.len() != other.len() {
        return false;
    }
    for place in 0..one.len() {
        if !is_same_job(&one[place], &other[place]) {
            return false;
        }
    }
    true
}

/// Whether the plan was made of this base and these jobs at this moment. Linear in all of them.
pub fn is_made_of(planned: &Planned, base: &Base, ranked: &[PlanJob], now: u64) -> bool
    ensures { (result ≡ true)
        ↔ (planned.now ≡ record { base = base.now; ranked = ranked.now; moment = now }) }
{
    planned.now() == now
        && is_same_base(planned.base(), base)
        && are_same_jobs(planned.ranked(), ranked)
}

// It does nothing: its contract tells what the type keeps of every base.
fn tell_base(base: &Base)
    ensures within { AreWithin base.now.rooms base.now.holds }
    ensures low { base.now.horizon ≤ LAST_START }
{
    let _horizon = base.horizon;
}

// It does nothing: its contract tells what the type keeps of every job.
fn tell_jobs(jobs: &[PlanJob])
    ensures { All IsPlannable jobs.now }
{
    for job in jobs {
        job.tell_plannable();
    }
}

/// The plan again, which is good for what it was made of.
pub fn plan_again(alloc: Global, old: &Planned) -> Result<Planned, Memory>
    ensures planned { IfOk result (λ planned. planned ≡ old.now) }
    ensures jobs { OnOk result (All IsPlannable old.now.ranked) }
    ensures within { OnOk result (AreWithin old.now.base.rooms
        (old.now.base.holds ++ plan_holds_of old.now.base old.now.ranked old.now.moment)) }
    ensures starts_fit { OnOk result
        (StartsFit old.now.base (plan_of old.now.base old.now.ranked old.now.moment) old.now.moment) }
    ensures apart { OnOk result (All (λ (placed : Placed). AreParts old.now.base.rooms placed.parts)
        (plan_of old.now.base old.now.ranked old.now.moment)) }
{
    parts_are_apart();
    plans_stay_within();
    starts_fit();
    tell_base(old.base());
    tell_jobs(old.ranked());
    old.copy(alloc)
}

/// The plan of other jobs, or at another moment, that has the placements of the old one. Linear in their parts.
pub fn plan_standing(
    alloc: Global,
    old: &Planned,
    base: Base,
    ranked: Vec<PlanJob>,
    now: u64,
    counts: Vec<usize>,
) -> Result<Planned, Memory>
    requires nodes { All (λ (job : AJob). All (λ node. node < length base.rooms) job.nodes) ranked.items }
    requires same { HasSamePlan old.now base ranked.items now counts.items }
    ensures parts { IfOk result (λ planned. planned ≡ record { base = base; ranked = ranked.items; moment = now }) }
    ensures jobs { OnOk result (All IsPlannable ranked.items) }
    ensures within { OnOk result (AreWithin base.rooms (base.holds ++ plan_holds_of base ranked.items now)) }
    ensures starts_fit { OnOk result (StartsFit base (plan_of base ranked.items now) now) }
    ensures apart { OnOk result
        (All (λ (placed : Placed). AreParts base.rooms placed.parts) (plan_of base ranked.items now)) }
{
    parts_are_apart();
    plans_stay_within();
    starts_fit();
    tell_base(&base);
    tell_jobs(ranked.as_slice());
    old.copy_for(alloc, base, ranked, now, counts)
}
