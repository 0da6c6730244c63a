//! Whether two jobs are one to the planner.

ghost use Rattle.std.specs.Prelude.{◌≡◌, ℕ, ◌≤◌, ◌<◌, ◌↔◌, true, IfSome};
ghost use Rattle.plain_data.specs.declared.seconds.TheConstants.{LAST_START};
ghost use Rattle.backfill_planner.specs.Giving.{window_end};
ghost use Rattle.backfill_planner.specs.Staying.{EndsInTime};
ghost use Rattle.plan_keeper.specs.Steady.{but_for_times, IsSameFrom};

use crate::same_times::{are_same_ahead, are_same_times};
use backfill_planner::{MemAsk, PlanJob};
use resource_profile::Need;

// Whether the jobs ask for the same memory.
fn is_same_mem(one: &MemAsk, other: &MemAsk) -> bool
    ensures { (result ≡ true) ↔ (one.now ≡ other.now) }
{
    match *one {
        MemAsk::All => matches!(*other, MemAsk::All),
        MemAsk::PerNode(one) => match *other {
            MemAsk::PerNode(other) => one.get() == other.get(),
            _ => false,
        },
        MemAsk::PerCpu(one) => match *other {
            MemAsk::PerCpu(other) => one.get() == other.get(),
            _ => false,
        },
    }
}

// Whether they need the same.
fn is_same_need(one: &Need, other: &Need) -> bool
    ensures { (result ≡ true) ↔ (one.now ≡ other.now) }
{
    one == other
}

// Whether these are the same nodes, in one order.
fn are_same_nodes(one: &[u32], other: &[u32]) -> bool
    ensures { (result ≡ true) ↔ (one.now ≡ other.now) }
{
    one == other
}

// Whether both have one limit, or none.
fn is_same_limit(one: &PlanJob, other: &PlanJob) -> bool
    ensures { (result ≡ true) ↔ (one.now.seconds ≡ other.now.seconds) }
{
    match &one.seconds {
        Some(one) => match &other.seconds {
            Some(other) => one.get() == other.get(),
            None => false,
        },
        None => other.seconds.is_none(),
    }
}

// Whether all that a plan takes from the jobs is the same but for the times at which they may not have nodes.
fn ask_the_same(one: &PlanJob, other: &PlanJob) -> bool
    ensures { (result ≡ true) ↔ (but_for_times one.now ≡ but_for_times other.now) }
{
    if one.id != other.id || !is_same_need(&one.need, &other.need) {
        return false;
    }
    if one.cpus_per_task.get() != other.cpus_per_task.get() || one.per_node != other.per_node {
        return false;
    }
    if one.exclusive != other.exclusive || !is_same_mem(&one.mem_ask, &other.mem_ask) {
        return false;
    }
    is_same_limit(one, other) && are_same_nodes(one.nodes.as_slice(), other.nodes.as_slice())
}

/// Whether all that a plan takes from the jobs is the same. Linear in their nodes and times.
pub fn is_same_job(one: &PlanJob, other: &PlanJob) -> bool
    ensures { (result ≡ true) ↔ (one.now ≡ other.now) }
{
    ask_the_same(one, other) && are_same_times(one.barred.as_slice(), other.barred.as_slice())
}

/// Whether from now on all that a plan takes from the jobs is the same. Linear in their nodes and times, and where times
/// differ in the nodes for each of them.
pub fn is_same_from(old: &PlanJob, new: &PlanJob, now: u64) -> bool
    ensures { (result ≡ true) ↔ IsSameFrom now old.now new.now }
{
    ask_the_same(old, new)
        && are_same_ahead(
            old.barred.as_slice(),
            new.barred.as_slice(),
            new.nodes.as_slice(),
            now,
        )
}

/// It does nothing: its contract tells that the job's windows end in time, as its type has it.
pub fn tell_ends_in_time(job: &PlanJob)
    ensures { EndsInTime job.now }
{
    if let Some(seconds) = job.seconds {
        let _ = seconds.get();
    }
}

/// It does nothing: its contract tells that the job's windows aren't empty, as its type has it.
pub fn tell_windows(job: &PlanJob)
    ensures { (start : ℕ) → start ≤ LAST_START → start < window_end job.now start }
{
    if let Some(seconds) = job.seconds {
        let _ = seconds.get();
    }
}
