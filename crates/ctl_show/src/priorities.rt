//! The rows of priorities.

ghost use Rattle.std.specs.Prelude.{◌≡◌, ◌<◌, IfOk, length};
ghost use Rattle.ctl_state.specs.State.{state_of};
ghost use Rattle.ctl_state.specs.Soundness.{IsSound};
ghost use Rattle.ctl_waiting.specs.Measured.{IsMeasured};
ghost use Rattle.ctl_show.specs.Showing;

use crate::jobs::is_weighed;
use crate::rows::partition_name;
use crate::spans::places_among;
use ctl_state::cluster::Cluster;
use ctl_waiting::{Factors, measure, priority_of};
use job_table::record::JobRecord;
use plain_data::items::Items;
use reply_data::priority::PriorityRow;
use reply_data::view::Row;
use request_data::query::Who;
use request_data::target::Target;
use small_texts::memory_error::Memory;
use small_texts::name::Name;
use std::alloc::Global;

// What is shown of the job's priority.
#[tactic(auto, unfolding(crate::specs::Showing::priority_row_of))]
fn row_of(cluster: &Cluster, factors: &Factors, job: &JobRecord) -> Result<PriorityRow, Memory>
    requires measured { IsMeasured (state_of cluster.now) factors.now }
    requires partition { job.now.partition < length cluster.now.partitions }
    ensures { IfOk result (λ row.
        row ≡ Showing.priority_row_of (state_of cluster.now) factors.now.moment job.now) }
{
    Ok(PriorityRow {
        id: job.id,
        array: job.array,
        index: job.index,
        partition: partition_name(cluster, job)?,
        user: job.user.copy()?,
        parts: priority_of(factors, cluster, job),
    })
}

/// The rows of the pending jobs' priorities that a user's query shows, in the order of the jobs' numbers. It walks the
/// places between which the jobs lie that the query names.
pub(crate) fn priority_rows(
    alloc: Global,
    cluster: &Cluster,
    moment: u64,
    asker: &Name,
    who: &Who,
    jobs: &Option<Items<Target>>,
) -> Result<Vec<Row>, Memory>
    requires { IsSound (state_of cluster.now) }
    ensures { IfOk result (λ rows.
        rows.items ≡ Showing.priority_rows (state_of cluster.now) moment asker.now who.now jobs.now) }
{
    let factors = measure(alloc, cluster, moment)?;
    let mut rows = Vec::new(alloc);
    let places = places_among(&cluster.jobs, jobs);
    for place in places.first..places.end {
        let job = &cluster.jobs.records()[place];
        if is_weighed(asker, who, jobs, job) {
            rows.push(Row::Priority(row_of(cluster, &factors, job)?))?;
        }
    }
    Ok(rows)
}
