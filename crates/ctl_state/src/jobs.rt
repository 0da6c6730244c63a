//! Jobs and the plan.

ghost use Rattle.std.specs.Prelude.{◌≡◌};
ghost use Rattle.job_table.specs.JobStates;
ghost use Rattle.job_table.specs.Table.{job_with};
ghost use Rattle.ctl_state.specs.Events;

use backfill_planner::Placed;
use job_table::jobs::Jobs;
use job_table::record::JobRecord;
use request_data::state::JobState;

/// Whether the job waits for a start.
pub fn is_pending(job: &JobRecord) -> bool
    ensures { result ≡ JobStates.is_pending job.now.state }
{
    matches!(job.state, JobState::Pending)
}

/// Whether the job holds processors.
pub fn is_holding(job: &JobRecord) -> bool
    ensures { result ≡ JobStates.is_holding job.now.state }
{
    matches!(job.state, JobState::Running | JobState::Completing(_))
}

// Whether there is a job with this number that waits.
fn waits(jobs: &Jobs, id: u32) -> bool
    ensures { result ≡ Events.waits (job_with id jobs.now.records) }
{
    jobs.get(id).is_some_and(|job| is_pending(job))
}

/// Drops the placements of jobs that no longer wait. Linear in the plan; it takes no memory.
pub fn drop_placements(jobs: &Jobs, plan: &mut Vec<Placed>)
    ensures { plan.new.items ≡ Events.plan_left jobs.now.records plan.old.items }
{
    plan.retain(|placed| waits(jobs, placed.id));
}
