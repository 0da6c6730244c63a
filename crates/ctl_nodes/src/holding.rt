//! What jobs hold of nodes at a time.

ghost use Rattle.std.specs.Prelude.{◌≡◌, ◌≤◌, ◌&&◌, nat_lt, All, unwrap_or};
ghost use Rattle.std.specs.List.{list_any};
ghost use Rattle.plain_data.specs.Rows.{has_id};
ghost use Rattle.job_table.specs.declared.record.JobRecord.{JobRecord as OneJob};
ghost use Rattle.job_table.specs.declared.record.Part.{Part as OnePart};
ghost use Rattle.ctl_state.specs.Holds.{hold_end, holds_of_job};
ghost use Rattle.ctl_state.specs.State.{last_moment};
ghost use Rattle.ctl_nodes.specs.Reserving;

use ctl_state::holds::hold_end;
use job_table::record::{JobRecord, Part};
use plain_data::NodePlaces;

// Whether one of the parts is on one of these nodes.
fn are_on(nodes: &NodePlaces, parts: &[Part]) -> bool
    ensures { result ≡ list_any (λ (part : OnePart). has_id nodes.now part.node) parts.now }
{
    parts.iter().any(|part| nodes.contains(part.node))
}

// Whether the job holds what it holds at this time.
fn holds_then(now: u64, start: u64, end: u64, job: &JobRecord) -> bool
    requires started { unwrap_or job.now.started 0 ≤ last_moment }
    requires in_time { now ≤ last_moment }
    ensures { result ≡ (nat_lt start (hold_end now job.now) && nat_lt (unwrap_or job.now.started 0) end) }
{
    start < hold_end(now, job) && job.started.unwrap_or(0) < end
}

// Whether the job holds one of these nodes at this time.
#[tactic(auto, using(crate::proofs::Ways::job_in_way))]
fn holds_one(now: u64, nodes: &NodePlaces, start: u64, end: u64, job: &JobRecord) -> bool
    requires started { unwrap_or job.now.started 0 ≤ last_moment }
    requires in_time { now ≤ last_moment }
    ensures { result ≡ list_any (Reserving.is_in_way nodes.now start end) (holds_of_job now job.now) }
{
    holds_then(now, start, end, job) && are_on(nodes, job.parts.as_slice())
}

/// Whether jobs hold one of these nodes at this time. Linear in the jobs, and in the parts of those of this time; it
/// takes no memory.
pub(crate) fn are_held(
    now: u64,
    nodes: &NodePlaces,
    start: u64,
    end: u64,
    jobs: &[JobRecord],
) -> bool
    requires started { All (λ (job : OneJob). unwrap_or job.started 0 ≤ last_moment) jobs.now }
    requires in_time { now ≤ last_moment }
    ensures { result ≡ Reserving.are_held now nodes.now start end jobs.now }
{
    for job in jobs {
        if holds_one(now, nodes, start, end, job) {
            return true;
        }
    }
    false
}
