//! Until when jobs hold their parts.

ghost use Rattle.std.specs.Prelude.{◌≡◌, ◌≤◌, unwrap_or};
ghost use Rattle.ctl_state.specs.Holds;
ghost use Rattle.ctl_state.specs.State.{last_moment};

use job_table::record::JobRecord;
use plain_data::limit::Limit;
use plain_data::seconds::FOREVER;
use request_data::state::JobState;

// How many seconds a job keeps its parts once it is to end.
const KILL_WAIT: u64 = 30;

// When the job reaches its limit.
fn deadline(job: &JobRecord) -> u64
    requires { unwrap_or job.now.started 0 ≤ last_moment }
    ensures { result ≡ Holds.deadline job.now }
{
    let start = job.started.unwrap_or(0);
    match job.limit {
        Limit::Minutes(minutes) => start + minutes.get() * 60,
        Limit::Unlimited => FOREVER,
    }
}

/// Until when the job holds its parts, as a plan takes it. `KillWait` in slurm.conf(5), here 30 seconds (own).
pub fn hold_end(now: u64, job: &JobRecord) -> u64
    requires started { unwrap_or job.now.started 0 ≤ last_moment }
    requires in_time { now ≤ last_moment }
    ensures { result ≡ Holds.hold_end now job.now }
{
    if matches!(job.state, JobState::Running) && now < deadline(job) {
        deadline(job)
    } else {
        now + KILL_WAIT
    }
}
