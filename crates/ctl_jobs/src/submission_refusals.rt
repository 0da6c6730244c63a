//! Why a submission is refused under its basis.

ghost use Rattle.std.specs.Prelude.{◌≡◌, ◌≤◌, IfOk, length, nat_le};
ghost use Rattle.std.specs.List.{list_any};
ghost use Rattle.node_state.specs.Partitions.{IsOnNodes};
ghost use Rattle.job_table.specs.Targets.{AreTogether};
ghost use Rattle.ctl_state.specs.State.{state_of};
ghost use Rattle.ctl_state.specs.Soundness.{IsSound};
ghost use Rattle.ctl_state.specs.Refusals.{first_refusal};
ghost use Rattle.ctl_jobs.specs.Drafts.{lone_in, refusals_in};
ghost use Rattle.ctl_jobs.specs.Submission;

use crate::accounts::takes_jobs_of;
use crate::dependency::is_bad_dependency;
use crate::draft::Draft;
use crate::limits::limit_exceeded;
use crate::placeable::is_placeable;
use ctl_state::cluster::Cluster;
use job_table::record::JobRecord;
use node_state::reservation_record::may_use;
use plain_data::array::ArraySpec;
use plain_data::boxed::Boxed;
use plain_data::conf::PartState;
use plain_data::job::JobDesc;
use plain_data::nice::Nice;
use reply_data::refusal::Refusal;
use small_texts::memory_error::Memory;
use small_texts::name::Name;
use std::alloc::Global;

// The last number that a job can have. `MaxJobId` in slurm.conf(5).
const LAST_JOB_ID: u64 = 67_043_328;

/// Whether a partition in this state takes no jobs. `State` of a partition in slurm.conf(5).
pub(crate) fn is_closed(state: PartState) -> bool
    ensures { result ≡ Submission.is_closed state }
{
    matches!(state, PartState::Drain | PartState::Inactive)
}

// Whether the user asks for a negative nice value and isn't privileged. `--nice` in sbatch(1).
fn may_not_raise(cluster: &Cluster, user: &Name, desc: &JobDesc) -> bool
    ensures { result ≡ Submission.may_not_raise (state_of cluster.now) user.now desc.now }
{
    matches!(desc.nice, Nice::Raise(_)) && !cluster.is_privileged(user)
}

// Whether the user names a reservation that there isn't, or that he may not use. `--reservation` in sbatch(1). Linear in
// the reservations, and in whom it names.
fn may_not_use(cluster: &Cluster, user: &Name, account: &Name, desc: &JobDesc) -> bool
    ensures { result ≡ Submission.may_not_use (state_of cluster.now) user.now account.now desc.now }
{
    let Some(name) = &desc.reservation else {
        return false;
    };
    match cluster.reservations.find(name) {
        Some(reservation) => !may_use(reservation, user, account),
        None => true,
    }
}

// Whether a node that is named isn't there. Linear in the names.
fn names_unknown(cluster: &Cluster, desc: &JobDesc) -> bool
    ensures { result ≡ Submission.names_unknown (state_of cluster.now) desc.now }
{
    desc.required
        .iter()
        .chain(desc.excluded.iter())
        .any(|name| cluster.nodes.find(name).is_none())
}

fn has_index_from(bound: u64, indices: &[u32]) -> bool
    ensures { result ≡ list_any (nat_le bound) indices.now }
{
    indices.iter().any(|index| bound <= u64::from(*index))
}

// Whether an index is MaxArraySize or more. Linear in the indices.
fn is_too_large(cluster: &Cluster, array: &Option<Boxed<ArraySpec>>) -> bool
    ensures { result ≡ Submission.is_too_large (state_of cluster.now) array.now }
{
    let bound = cluster.settings.max_array_size.get();
    match array {
        Some(array) => has_index_from(bound, array.indices.iter().as_slice()),
        None => false,
    }
}

// How many jobs a submission makes.
fn count_of_jobs(array: &Option<Boxed<ArraySpec>>) -> u64
    ensures count { result ≡ Submission.count_of_jobs array.now }
    ensures few { result ≤ 10_001 }
{
    match array {
        Some(array) => u64::from(array.indices.count()),
        None => 1,
    }
}

// Why there is no room for so many jobs. `MaxJobCount` in slurm.conf(5).
fn no_room(cluster: &Cluster, count: u64) -> Option<Refusal>
    requires { count ≤ 10001 }
    ensures { result ≡ first_refusal (Submission.refusals_of_room (state_of cluster.now) count) }
{
    if cluster.settings.max_job_count.get() < cluster.jobs.len() as u64 + count {
        return Some(Refusal::JobTableFull);
    }
    let next = cluster.next_id;
    if LAST_JOB_ID + 1 < u64::from(next) + count {
        return Some(Refusal::JobIdsSpent);
    }
    None
}

// Why as many jobs, of which this is one, are refused. `MaxArraySize` in slurm.conf(5).
#[tactic(auto, using(crate::proofs::Refused::first_joined))]
fn refusal_of_count(
    cluster: &Cluster,
    job: &JobRecord,
    array: &Option<Boxed<ArraySpec>>,
) -> Option<Refusal>
    requires { AreTogether cluster.now.jobs.records }
    ensures { result ≡ first_refusal (Submission.refusals_of_count (state_of cluster.now) job.now array.now) }
{
    if is_too_large(cluster, array) {
        return Some(Refusal::ArrayTooLarge);
    }
    if is_bad_dependency(cluster, array, &job.terms().dependency) {
        return Some(Refusal::BadDependency);
    }
    let count = count_of_jobs(array);
    limit_exceeded(cluster, job, count).or(no_room(cluster, count))
}

/// Why the draft is refused, of which `lone` is the one job where it is no array.
pub(crate) fn refusal_of(
    alloc: Global,
    cluster: &Cluster,
    draft: &Draft<'_>,
    lone: &JobRecord,
) -> Result<Option<Refusal>, Memory>
    requires sound { IsSound (state_of cluster.now) }
    requires there { IsOnNodes (length cluster.now.nodes.records) draft.now.partition.now }
    requires lone { lone.now ≡ lone_in (state_of cluster.now) draft.now }
    ensures { IfOk result (λ refusal. refusal ≡ first_refusal (refusals_in (state_of cluster.now) draft.now)) }
{
    let partition = draft.partition;
    if !takes_jobs_of(partition, &draft.account, draft.desc) {
        return Ok(Some(Refusal::NotAllowedHere));
    }
    if may_not_use(cluster, draft.user, &draft.account, draft.desc) {
        return Ok(Some(Refusal::InvalidReservation));
    }
    if may_not_raise(cluster, draft.user, draft.desc) {
        return Ok(Some(Refusal::AccessDenied));
    }
    if names_unknown(cluster, draft.desc) {
        return Ok(Some(Refusal::UnknownNode));
    }
    if !is_placeable(alloc, cluster, partition, lone)? {
        return Ok(Some(Refusal::NodesNotAvailable));
    }
    Ok(refusal_of_count(cluster, lone, &draft.desc.array))
}
