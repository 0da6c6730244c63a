//! When jobs reach their limits, and when their records go.

ghost use Rattle.std.specs.Prelude.{◌≡◌, ◌<◌, length, map, count_by};
ghost use Rattle.std.specs.List.{list_any};
ghost use Rattle.job_table.specs.Awaiting.{has_gone};
ghost use Rattle.job_table.specs.Usage.{Charges};
ghost use Rattle.job_table.specs.Walks.{map_at};
ghost use Rattle.ctl_pass.specs.Limits;
ghost use Rattle.ctl_pass.specs.Preempting.{preempted};

use job_table::awaited::Awaited;
use job_table::change::Change;
use job_table::jobs::{Jobs, has_gone};
use job_table::laws::{a_change_is_of_its_place, a_walk_changes_all, who_leaves_is_charged};
use job_table::record::JobRecord;
use plain_data::limit::Limit;
use plain_data::seconds::FOREVER;
use request_data::state::{Final, JobState};

/// Whether the job runs and has reached its limit.
pub(crate) fn is_over(now: u64, job: &JobRecord) -> bool
    ensures { result ≡ Limits.is_over now job.now }
{
    let start = job.started.unwrap_or(0);
    matches!(job.state, JobState::Running)
        && match job.limit {
            Limit::Minutes(minutes) => now.saturating_sub(start) >= minutes.get() * 60,
            Limit::Unlimited => now >= FOREVER,
        }
}

/// How many jobs have reached their limits.
pub(crate) fn count_over(now: u64, jobs: &[JobRecord]) -> usize
    ensures { result ≡ count_by (Limits.is_over now) jobs.now }
{
    jobs.iter().filter(|job| is_over(now, job)).count()
}

/// Whether a record goes: it is old, and no pending job waits for it.
pub(crate) fn any_gone(age: u64, now: u64, awaited: &Awaited, jobs: &[JobRecord]) -> bool
    ensures { result ≡ list_any (has_gone age now awaited.now) jobs.now }
{
    jobs.iter().any(|job| has_gone(age, now, awaited, job))
}

// Sees to the limit of the job at a place.
fn time_one_out(now: u64, jobs: &mut Jobs, place: usize)
    requires { place < length jobs.old.records }
    ensures records { jobs.new.records ≡ map_at place (Limits.timed_out now) jobs.old.records }
    ensures charges { Charges now jobs.old jobs.new }
{
    a_change_is_of_its_place::<JobRecord>();
    who_leaves_is_charged();
    if is_over(now, &jobs.records()[place]) {
        let change = Change::Leave {
            to: Final::Timeout,
            moment: now,
            exit: None,
        };
        jobs.change_at(place, change);
    }
}

/// Sees to the limits: the jobs that have reached them complete, and their associations are charged. Linear in the jobs
/// and the parts of those that complete; it takes no memory.
pub(crate) fn time_out(now: u64, jobs: &mut Jobs)
    ensures records { jobs.new.records ≡ map (Limits.timed_out now) jobs.old.records }
    ensures charges { Charges now jobs.old jobs.new }
{
    a_walk_changes_all::<JobRecord>();
    who_leaves_is_charged();
    for place in 0..jobs.records().len() {
        time_one_out(now, jobs, place);
    }
}

/// Takes the jobs with these numbers out of Running, to be requeued; their associations are charged. In constant time for
/// each, beside its parts; it takes no memory.
pub(crate) fn preempt(now: u64, jobs: &mut Jobs, gone: &[u32])
    ensures records { jobs.new.records ≡ map (preempted now gone.now) jobs.old.records }
    ensures charges { Charges now jobs.old jobs.new }
{
    who_leaves_is_charged();
    for id in gone {
        let change = Change::Leave {
            to: Final::Requeue,
            moment: now,
            exit: None,
        };
        jobs.change(*id, change);
    }
}
