//! Limits on jobs that haven't ended.

ghost use Rattle.std.specs.Prelude.{◌≡◌, ◌<◌, ◌^◌, ◌&&◌, if◌then◌else◌, sum_by};
ghost use Rattle.run_limits.specs.Counting.{is_in};
ghost use Rattle.run_limits.specs.Submitting.{submit_limits};
ghost use Rattle.ctl_state.specs.Counted as spec;
ghost use Rattle.ctl_state.specs.Refusals.{first_refusal};
ghost use Rattle.ctl_state.specs.State.{state_of};
ghost use Rattle.ctl_jobs.specs.Submission.{beside_unended, jobs_unended};
ghost use Rattle.ctl_jobs.specs.Tallied.{counted_by, is_array};
ghost use Rattle.job_table.specs.JobStates;

use ctl_state::cluster::Cluster;
use ctl_state::counting::counted_of;
use job_table::jobs::Jobs;
use job_table::record::JobRecord;
use job_table::unended::Unended;
use reply_data::refusal::Refusal;
use request_data::state::JobState;
use run_limits::assocs::Assocs;
use run_limits::counted::{Counted, Group};
use run_limits::groups::is_in;
use run_limits::submitting::{CountsJobs, submit_limit};

// The jobs, of which those are counted that haven't ended.
#[derive(Drop)]
struct UnendedJobs<'a> {
    assocs: &'a Assocs,
    jobs: &'a Jobs,
}

fn is_ended(job: &JobRecord) -> bool
    ensures { result ≡ JobStates.is_ended job.now.state }
{
    matches!(job.state, JobState::Ended(_))
}

// How many of the jobs of a group haven't ended, one by one.
#[tactic(auto, unfolding(crate::specs::Submission::jobs_unended))]
fn count_jobs(assocs: &Assocs, group: Group, jobs: &[JobRecord]) -> u64
    ensures { result ≡ jobs_unended assocs.now.records jobs.now group }
{
    jobs.iter()
        .filter(|job| !is_ended(job) && is_in(assocs, group, &counted_of(job)))
        .count() as u64
}

// What stands for a job of these: its array and its processors aren't asked for.
fn counted_by(tally: &Unended) -> Counted
    ensures { result ≡ counted_by tally.now.assoc tally.now.qos }
{
    Counted {
        array: None,
        assoc: tally.assoc,
        qos: tally.qos,
        cpus: 0,
    }
}

// How many the tallies of a group count.
fn sum_tallies(assocs: &Assocs, group: Group, tallies: &[Unended]) -> u64
    requires { sum_by (λ tally. tally.count) tallies.now < 2 ^ 64 }
    ensures { result ≡ sum_by (λ tally. if is_in assocs.now.records group (counted_by tally.assoc tally.qos)
        then tally.count else 0) tallies.now }
{
    let mut sum = 0_u64;
    for tally in tallies {
        if is_in(assocs, group, &counted_by(tally)) {
            sum += tally.count;
        }
    }
    sum
}

// Whether the group is of an array's tasks.
fn is_array(group: Group) -> bool
    ensures { result ≡ is_array group }
{
    matches!(group, Group::Array(_))
}

impl CountsJobs for UnendedJobs<'_> {
    ghost use Rattle.ctl_jobs.specs.Submission.{jobs_unended};

    ghost jobs_of = { λ unended group. jobs_unended unended.assocs.now.records unended.jobs.now.records group };

    fn jobs_in(&self, group: Group) -> u64 {
        match self.jobs.unended() {
            Some(tallies) if !is_array(group) && tallies.len() <= self.jobs.len() => {
                sum_tallies(self.assocs, group, tallies)
            }
            _ => count_jobs(self.assocs, group, self.jobs.records()),
        }
    }
}

/// Why so many jobs like this one are refused beside those that haven't ended: for each limit that stands linear in the
/// jobs, or in the pairs of an association and a quality of service that jobs were added of, where these are fewer and
/// what hasn't ended of them is known. `MaxSubmitJobs` and `GrpSubmitJobs` in sacctmgr(1).
pub(crate) fn limit_exceeded(cluster: &Cluster, job: &JobRecord, count: u64) -> Option<Refusal>
    ensures { result
        ≡ first_refusal (submit_limits (beside_unended (state_of cluster.now)) (spec.counted_of job.now) count) }
{
    let unended = UnendedJobs {
        assocs: &cluster.assocs,
        jobs: &cluster.jobs,
    };
    submit_limit(&cluster.assocs, &counted_of(job), count, &unended)
}
