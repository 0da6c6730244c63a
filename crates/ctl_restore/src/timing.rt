//! Whether the moments of a saved job fit its state.

ghost use Rattle.std.specs.Prelude.{◌≡◌, ◌↔◌, IsTrue, All, max, unwrap_or, is_none, is_some, nat_lt, true};
ghost use Rattle.job_table.specs.JobStates;
ghost use Rattle.ctl_restore.specs.Fits.{IsWellTimed};

use request_data::state::JobState;
use saved_data::job::SavedJob;

// The later of its submission and of the second before which it doesn't start.
fn eligible_second(job: &SavedJob) -> u64
    ensures { result ≡ max job.now.submit (unwrap_or job.now.terms.begin 0) }
{
    let begin = job.terms.get().begin.map_or(0, |begin| begin.get());
    job.submit.max(begin)
}

fn is_running(job: &SavedJob) -> bool
    ensures { result ≡ JobStates.is_running job.now.state }
{
    matches!(job.state, JobState::Running)
}

fn is_pending(job: &SavedJob) -> bool
    ensures { result ≡ JobStates.is_pending job.now.state }
{
    matches!(job.state, JobState::Pending)
}

// Whether a running job has no end, and a pending one has one where it was started.
fn has_its_end(job: &SavedJob) -> bool
    ensures { IsTrue result ↔ ((JobStates.is_running job.now.state ≡ true → is_none job.now.ended ≡ true)
        × (JobStates.is_pending job.now.state ≡ true → is_some job.now.ended ≡ is_some job.now.started)) }
{
    (!is_running(job) || job.ended.is_none())
        && (!is_pending(job) || job.ended.is_some() == job.started.is_some())
}

fn is_well_timed(job: &SavedJob) -> bool
    ensures { IsTrue result ↔ IsWellTimed job.now }
{
    job.eligible == eligible_second(job)
        && job.started.is_some() == (0 < job.starts)
        && has_its_end(job)
        && job.starts <= 4_000_000_000
}

/// Whether the moments of each job fit its state. Linear in the jobs.
pub fn are_well_timed(jobs: &[SavedJob]) -> bool
    ensures { IsTrue result ↔ All IsWellTimed jobs.now }
{
    jobs.iter().all(|job| is_well_timed(job))
}
