//! The rows of jobs in every state.

ghost use Rattle.std.specs.Prelude.{◌≡◌, ◌≤◌, IfOk};
ghost use Rattle.ctl_state.specs.State.{state_of, last_moment};
ghost use Rattle.ctl_state.specs.Soundness.{IsSound};
ghost use Rattle.ctl_show.specs.Showing;

use crate::rows::push_row_at;
use crate::spans::{extent_of, places_meant};
use ctl_state::cluster::Cluster;
use job_table::record::JobRecord;
use job_table::targets::is_named;
use reply_data::view::Row;
use request_data::target::Target;
use small_texts::memory_error::Memory;
use std::alloc::Global;

// Whether the target names the job, if there is one.
fn is_meant(target: &Option<Target>, job: &JobRecord) -> bool
    ensures { result ≡ Showing.is_meant target.now job.now }
{
    match target {
        Some(target) => is_named(target, job),
        None => true,
    }
}

/// The rows of the jobs that the target names, or of all, in the order of their numbers. It walks the places between which
/// these lie.
pub(crate) fn kept_rows(
    alloc: Global,
    cluster: &Cluster,
    moment: u64,
    target: &Option<Target>,
) -> Result<Vec<Row>, Memory>
    requires sound { IsSound (state_of cluster.now) }
    requires in_time { moment ≤ last_moment }
    ensures { IfOk result (λ rows. rows.items ≡ Showing.kept_rows (state_of cluster.now) moment target.now) }
{
    let mut outlook = None;
    let mut rows = Vec::new(alloc);
    let places = places_meant(&cluster.jobs, target);
    let extent = extent_of(places);
    for place in places.first..places.end {
        if is_meant(target, &cluster.jobs.records()[place]) {
            push_row_at(
                alloc,
                cluster,
                moment,
                extent,
                &mut outlook,
                &mut rows,
                place,
            )?;
        }
    }
    Ok(rows)
}
