//! Which jobs a query shows, and which queries name nothing that there is.

ghost use Rattle.std.specs.Prelude.{◌≡◌, ◌<◌, length, not};
ghost use Rattle.std.specs.List.{list_any};
ghost use Rattle.job_table.specs.Targets as spec;
ghost use Rattle.job_table.specs.Targets.{AreTogether};
ghost use Rattle.ctl_state.specs.State.{state_of};
ghost use Rattle.ctl_show.specs.Showing;

use ctl_state::cluster::Cluster;
use ctl_state::jobs::is_pending;
use job_table::jobs::Jobs;
use job_table::record::JobRecord;
use job_table::targets::is_named;
use plain_data::items::Items;
use request_data::query::{JobQuery, StateCode, Who};
use request_data::state::{Final, JobState};
use request_data::target::Target;
use small_texts::name::Name;

// Whether a job in this state has the code.
fn has_code(code: StateCode, state: JobState) -> bool
    ensures { result ≡ Showing.has_code code state }
{
    match code {
        StateCode::Pending => matches!(state, JobState::Pending),
        StateCode::Running => matches!(state, JobState::Running),
        StateCode::Completing => matches!(state, JobState::Completing(_)),
        StateCode::Completed => matches!(state, JobState::Ended(Final::Completed)),
        StateCode::Cancelled => matches!(state, JobState::Ended(Final::Cancelled)),
        StateCode::Failed => matches!(state, JobState::Ended(Final::Failed)),
        StateCode::Timeout => matches!(state, JobState::Ended(Final::Timeout)),
        StateCode::NodeFail => matches!(state, JobState::Ended(Final::NodeFail)),
    }
}

fn has_one_of(codes: &[StateCode], state: JobState) -> bool
    ensures { result ≡ list_any (λ code. Showing.has_code code state) codes.now }
{
    codes.iter().any(|code| has_code(*code, state))
}

// Whether the state is one of those that are asked for.
fn is_in(wanted: &Option<Items<StateCode>>, state: JobState) -> bool
    ensures { result ≡ Showing.is_in wanted.now state }
{
    match wanted {
        Some(codes) => has_one_of(codes.as_slice(), state),
        None => !matches!(state, JobState::Ended(_)),
    }
}

// Expected starts are shown of pending jobs alone.
fn may_be_shown(starts: bool, state: JobState) -> bool
    ensures { result ≡ Showing.may_be_shown starts state }
{
    !starts || matches!(state, JobState::Pending)
}

// Whether the job is of those whose jobs are asked for.
fn is_of(who: &Who, asker: &Name, job: &JobRecord) -> bool
    ensures { result ≡ Showing.is_of who.now asker.now job.now }
{
    match who {
        Who::Anyone => true,
        Who::Asker => job.user.is(asker),
        Who::User(user) => job.user.is(user),
    }
}

// Whether the job is of the partition that is asked for, if one is.
fn is_there(cluster: &Cluster, asked: &Option<Name>, job: &JobRecord) -> bool
    requires { job.now.partition < length cluster.now.partitions }
    ensures { result ≡ Showing.is_there (state_of cluster.now) asked.now job.now }
{
    match asked {
        Some(name) => {
            let partition = &cluster.partitions.records()[job.partition as usize];
            partition.conf.name.is(name)
        }
        None => true,
    }
}

fn is_named_by_any(targets: &[Target], job: &JobRecord) -> bool
    ensures { result ≡ list_any (λ target. spec.is_named target job.now) targets.now }
{
    targets.iter().any(|target| is_named(target, job))
}

// Whether one of the targets names the job, if there are any.
fn is_among(targets: &Option<Items<Target>>, job: &JobRecord) -> bool
    ensures { result ≡ Showing.is_among targets.now job.now }
{
    match targets {
        Some(targets) => is_named_by_any(targets.as_slice(), job),
        None => true,
    }
}

/// Whether a user's query shows the job. Linear in the states and the targets that the query names.
#[tactic(auto, unfolding(crate::specs::Showing::is_shown))]
pub(crate) fn is_shown(cluster: &Cluster, asker: &Name, query: &JobQuery, job: &JobRecord) -> bool
    requires { job.now.partition < length cluster.now.partitions }
    ensures { result ≡ Showing.is_shown (state_of cluster.now) asker.now query.now job.now }
{
    is_in(&query.states, job.state)
        && may_be_shown(query.starts, job.state)
        && is_of(&query.who, asker, job)
        && is_there(cluster, &query.partition, job)
        && is_among(&query.jobs, job)
}

/// Whether a user's query of priorities shows the job. Linear in the targets that the query names.
#[tactic(auto, unfolding(crate::specs::Showing::is_weighed))]
pub(crate) fn is_weighed(
    asker: &Name,
    who: &Who,
    jobs: &Option<Items<Target>>,
    job: &JobRecord,
) -> bool
    ensures { result ≡ Showing.is_weighed asker.now who.now jobs.now job.now }
{
    is_pending(job) && is_of(who, asker, job) && is_among(jobs, job)
}

fn names_any(target: &Target, jobs: &[JobRecord]) -> bool
    ensures { result ≡ list_any (spec.is_named target.now) jobs.now }
{
    jobs.iter().any(|job| is_named(target, job))
}

// Whether the target names a job. It looks only where such jobs lie.
fn is_found(jobs: &Jobs, target: &Target) -> bool
    requires { AreTogether jobs.now.records }
    ensures { result ≡ list_any (spec.is_named target.now) jobs.now.records }
{
    let places = jobs.places_of(target);
    names_any(target, &jobs.records()[places.first..places.end])
}

fn any_names_nothing(jobs: &Jobs, targets: &[Target]) -> bool
    requires { AreTogether jobs.now.records }
    ensures { result ≡ list_any (λ target. not (list_any (spec.is_named target) jobs.now.records)) targets.now }
{
    for target in targets {
        if !is_found(jobs, target) {
            return true;
        }
    }
    false
}

/// Whether a target names no job. Logarithmic in the jobs for each target, and linear in the tasks of an array that it
/// names as a whole.
pub(crate) fn names_nothing(jobs: &Jobs, targets: &Option<Items<Target>>) -> bool
    requires { AreTogether jobs.now.records }
    ensures { result ≡ Showing.names_nothing jobs.now.records targets.now }
{
    match targets {
        Some(targets) => any_names_nothing(jobs, targets.as_slice()),
        None => false,
    }
}

/// Whether the target names no job, if there is one. Logarithmic in the jobs, and linear in the tasks of an array that
/// it names as a whole.
pub(crate) fn means_nothing(jobs: &Jobs, target: &Option<Target>) -> bool
    requires { AreTogether jobs.now.records }
    ensures { result ≡ Showing.means_nothing jobs.now.records target.now }
{
    match target {
        Some(target) => !is_found(jobs, target),
        None => false,
    }
}

/// Whether the node that is asked for isn't there. It takes constant time.
pub(crate) fn is_no_node(cluster: &Cluster, asked: &Option<Name>) -> bool
    ensures { result ≡ Showing.is_no_node (state_of cluster.now) asked.now }
{
    match asked {
        Some(name) => cluster.nodes.find(name).is_none(),
        None => false,
    }
}

/// Whether the reservation that is asked for isn't there. Linear in the reservations.
pub(crate) fn is_no_reservation(cluster: &Cluster, asked: &Option<Name>) -> bool
    ensures { result ≡ Showing.is_no_reservation (state_of cluster.now) asked.now }
{
    match asked {
        Some(name) => cluster.reservations.find(name).is_none(),
        None => false,
    }
}

/// Whether the partition that is asked for isn't there. Linear in the partitions.
pub(crate) fn is_unknown(cluster: &Cluster, asked: &Option<Name>) -> bool
    ensures { result ≡ Showing.is_unknown (state_of cluster.now) asked.now }
{
    match asked {
        Some(name) => cluster.partitions.find(Some(name)).is_none(),
        None => false,
    }
}
