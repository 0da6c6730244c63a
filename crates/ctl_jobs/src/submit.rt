//! Submissions.

ghost use Rattle.std.specs.Prelude.{◌≡◌, ◌<◌, All, IfOk, OnErr, OnOk, length};
ghost use Rattle.std.specs.Option.{option_to_list};
ghost use Rattle.node_state.specs.Partitions.{IsOnNodes};
ghost use Rattle.job_table.specs.declared.record.JobRecord.{JobRecord};
ghost use Rattle.ctl_state.specs.State.{state_of};
ghost use Rattle.ctl_state.specs.Index.{IsIndexed};
ghost use Rattle.ctl_state.specs.Soundness.{IsSound};
ghost use Rattle.ctl_jobs.specs.Drafts.{IsDecidedIn};
ghost use Rattle.ctl_jobs.specs.Submission.{CanAdd, IsDecided, submit_after};

use crate::accounts::{account_name, assoc_for, qos_for};
use crate::draft::Draft;
use crate::handed::Handed;
use crate::submission_refusals::{is_closed, refusal_of};
use crate::tasks::{hand_in, lone_job};
use ctl_state::cluster::Cluster;
use ctl_state::laws::parts_stay;
use plain_data::job::JobDesc;
use reply_data::refusal::Refusal;
use small_texts::memory_error::Memory;
use small_texts::name::Name;
use std::alloc::Global;

// Why the draft is refused, or what it makes.
fn decide_in(
    alloc: Global,
    cluster: &Cluster,
    draft: &Draft<'_>,
) -> Result<Result<Handed, Refusal>, Memory>
    requires sound { IsSound (state_of cluster.now) }
    requires there { IsOnNodes (length cluster.now.nodes.records) draft.now.partition.now }
    ensures { IfOk result (IsDecidedIn (state_of cluster.now) draft.now) }
{
    let lone = lone_job(alloc, cluster, draft)?;
    match refusal_of(alloc, cluster, draft, &lone)? {
        Some(refusal) => Ok(Err(refusal)),
        None => Ok(Ok(hand_in(alloc, cluster, draft, lone)?)),
    }
}

/// Why the submission is refused, or the jobs that it makes; the cluster stays as it is. Linear in the partitions, in the
/// tasks that it makes, in the associations from the user's first to his last, and in the partition's nodes up to the
/// first that could run the job alone. Where none could, or it names a reservation or nodes that it must have, linear in
/// all nodes; then it sorts the partition's where they don't stand in order. sbatch(1).
pub fn decide(
    alloc: Global,
    cluster: &Cluster,
    moment: u64,
    user: &Name,
    desc: &JobDesc,
) -> Result<Result<Handed, Refusal>, Memory>
    requires sound { IsSound (state_of cluster.now) }
    ensures { IfOk result (IsDecided (state_of cluster.now) moment user.now desc.now) }
{
    let Some(assoc) = assoc_for(cluster, user, desc) else {
        return Ok(Err(Refusal::InvalidAccount));
    };
    let Some(place) = cluster.partitions.find(desc.partition.as_ref()) else {
        return Ok(Err(Refusal::InvalidPartition));
    };
    let Some(partition) = cluster.partitions.at(place) else {
        return Ok(Err(Refusal::InvalidPartition));
    };
    if is_closed(partition.state) {
        return Ok(Err(Refusal::PartitionClosed));
    }
    let Some(qos) = qos_for(cluster, desc) else {
        return Ok(Err(Refusal::InvalidQos));
    };
    let draft = Draft {
        moment,
        user,
        desc,
        account: account_name(alloc, cluster, assoc)?,
        assoc,
        qos,
        place,
        partition,
    };
    decide_in(alloc, cluster, &draft)
}

/// Adds what a submission makes. Linear in its tasks; want of memory leaves the cluster as it was.
pub fn accept(cluster: &mut Cluster, handed: Handed) -> Result<(), Memory>
    requires below { All (λ (job : JobRecord). job.id < cluster.old.next_id) cluster.old.jobs.records }
    requires room { CanAdd (state_of cluster.old) handed.jobs.items }
    ensures ok { OnOk result (state_of cluster.new
        ≡ submit_after (state_of cluster.old) handed.jobs.items (option_to_list handed.array)) }
    ensures err { OnErr result (state_of cluster.new ≡ state_of cluster.old) }
    ensures indexed { IsIndexed cluster.old → IsIndexed cluster.new }
{
    parts_stay();
    let Handed { jobs, array } = handed;
    let count = jobs.len() as u32;
    let most = cluster.settings.max_job_count.get();
    cluster.arrays.reserve(1)?;
    // There is room for them, so only memory may be wanting.
    cluster.jobs.add(jobs, most).map_err(|_| Memory)?;
    cluster.next_id += count;
    if let Some(array) = array {
        cluster.arrays.push(array).unwrap();
    }
    Ok(())
}
