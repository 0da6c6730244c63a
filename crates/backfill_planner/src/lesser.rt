ghost use Rattle.std.specs.Prelude.{◌≡◌, ◌≤◌, IfSome, unwrap_or};
ghost use Rattle.std.specs.Bool.{OnTrue};
ghost use Rattle.resource_profile.specs.Sets.{AsksNoMore};
ghost use Rattle.backfill_planner.specs.Lesser.{HaveSameNodes, IsNoMoreMem, IsLesser};

use crate::job::{Barred, PlanJob};
use plain_data::mem_ask::MemAsk;
use plain_data::seconds::FOREVER;
use resource_profile::Need;

// Whether one need asks no more than the other.
fn asks_no_more(lesser: &Need, need: &Need) -> bool
    ensures { OnTrue result (AsksNoMore lesser.now need.now) }
{
    lesser.tasks <= need.tasks
        && lesser.least <= need.least
        && need.most.min(lesser.tasks) <= lesser.most
        && lesser.required <= need.required
        && lesser.least <= lesser.tasks
        && lesser.required <= lesser.tasks
}

// Whether the memory that one asks for is of the other's kind, and no more.
fn is_no_more_mem(lesser: &MemAsk, asked: &MemAsk) -> bool
    ensures { OnTrue result (IsNoMoreMem lesser.now asked.now) }
{
    match *lesser {
        MemAsk::All => matches!(*asked, MemAsk::All),
        MemAsk::PerNode(less) => match *asked {
            MemAsk::PerNode(more) => less.get() <= more.get(),
            _ => false,
        },
        MemAsk::PerCpu(less) => match *asked {
            MemAsk::PerCpu(more) => less.get() <= more.get(),
            _ => false,
        },
    }
}

// How long the job's window is; without a limit it ends after all moments.
fn window_length(job: &PlanJob) -> u64
    ensures length { result ≡ unwrap_or job.now.seconds FOREVER }
    ensures range { IfSome job.now.seconds (λ seconds. (1 ≤ seconds) × (seconds ≤ 3153600000)) }
{
    match job.seconds {
        Some(seconds) => seconds.get(),
        None => FOREVER,
    }
}

// Whether these are the same times, in one order.
fn are_same(one: &[Barred], other: &[Barred]) -> bool
    ensures { OnTrue result (one.now ≡ other.now) }
{
    one == other
}

/// Whether both jobs may have the same nodes, barred at the same times. It compares the lists.
pub(crate) fn have_same_nodes(one: &PlanJob, other: &PlanJob) -> bool
    ensures { OnTrue result (HaveSameNodes one.now other.now) }
{
    one.nodes.as_slice() == other.nodes.as_slice()
        && are_same(one.barred.as_slice(), other.barred.as_slice())
}

/// Whether one job asks for no more tasks, processors, megabytes and seconds than another one of the same nodes, and may
/// have as many tasks on a node, or all of its own. In constant time.
pub(crate) fn is_lesser(lesser: &PlanJob, job: &PlanJob) -> bool
    ensures { OnTrue result (HaveSameNodes lesser.now job.now → IsLesser lesser.now job.now) }
{
    if lesser.exclusive != job.exclusive {
        return false;
    }
    if job.per_node > lesser.per_node && lesser.need.tasks > lesser.per_node {
        return false;
    }
    if lesser.cpus_per_task.get() > job.cpus_per_task.get() {
        return false;
    }
    if window_length(lesser) > window_length(job) {
        return false;
    }
    asks_no_more(&lesser.need, &job.need) && is_no_more_mem(&lesser.mem_ask, &job.mem_ask)
}
