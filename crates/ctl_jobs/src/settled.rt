//! What is settled for a job.

ghost use Rattle.std.specs.Prelude.{◌≡◌, IfOk, codes, unwrap_or};
ghost use Rattle.ctl_state.specs.State.{state_of};
ghost use Rattle.ctl_jobs.specs.Drafts.{terms_in};
ghost use Rattle.ctl_jobs.specs.Submission;

use crate::draft::Draft;
use ctl_state::cluster::Cluster;
use job_table::terms::Terms;
use node_state::partition_record::PartRecord;
use plain_data::Plain;
use plain_data::job::JobDesc;
use plain_data::limit::Limit;
use plain_data::mem_ask::MemAsk;
use plain_data::ranged::Ranged;
use small_texts::memory_error::Memory;
use small_texts::name::Name;
use std::alloc::Global;

/// How long a job of the partition may run that says so much of it. `--time` in sbatch(1), `DefaultTime` and `MaxTime`
/// in slurm.conf(5).
pub(crate) fn limit_in(partition: &PartRecord, desc: &JobDesc) -> Limit
    ensures { result ≡ Submission.limit_in partition.now desc.now }
{
    let conf = &partition.conf;
    desc.limit.or(conf.default_time).unwrap_or(conf.max_time)
}

// The memory of such a job. `--mem` in sbatch(1), `DefMemPerNode` in slurm.conf(5).
fn memory_in(cluster: &Cluster, partition: &PartRecord, desc: &JobDesc) -> MemAsk
    ensures { result ≡ Submission.memory_in (state_of cluster.now) partition.now desc.now }
{
    desc.mem_ask
        .or(partition.conf.mem_default)
        .or(cluster.settings.mem_default)
        .unwrap_or(MemAsk::All)
}

// The quality of service of a job, which is `normal` where it names none.
fn qos_of(alloc: Global, desc: &JobDesc) -> Result<Name, Memory>
    ensures { IfOk result (λ qos. qos ≡ unwrap_or desc.now.qos (codes "normal")) }
{
    match &desc.qos {
        Some(qos) => qos.copy(),
        None => Name::read(alloc, b"normal").map_err(|_| Memory),
    }
}

// How many tasks of the job's array may hold processors at once: the number after `%`. `--array` in sbatch(1).
fn at_once_of(desc: &JobDesc) -> Option<Ranged<1, 4294967295>>
    ensures { result ≡ Submission.at_once_of desc.now }
{
    desc.array.as_ref()?.most
}

/// What is settled for the jobs of the draft. Linear in its texts, whatever indices its array has.
pub(crate) fn settled(alloc: Global, cluster: &Cluster, draft: &Draft<'_>) -> Result<Terms, Memory>
    ensures { IfOk result (λ terms. terms ≡ terms_in (state_of cluster.now) draft.now) }
{
    let desc = draft.desc;
    let partition = draft.partition;
    Ok(Terms {
        name: desc.name.copy()?,
        account: draft.account.copy()?,
        qos: qos_of(alloc, desc)?,
        reservation: desc.reservation.copy()?,
        tasks: desc.tasks,
        cpus_per_task: desc.cpus_per_task,
        tasks_per_node: desc.tasks_per_node,
        min_nodes: desc.min_nodes,
        max_nodes: desc.max_nodes,
        mem: memory_in(cluster, partition, desc),
        exclusive: desc.exclusive,
        begin: desc.begin,
        requeue: desc.requeue.unwrap_or(cluster.settings.job_requeue),
        features: desc.features.copy()?,
        required: desc.required.copy()?,
        excluded: desc.excluded.copy()?,
        at_once: at_once_of(desc),
        dependency: desc.dependency.copy()?,
        run: desc.run,
        exit: desc.exit,
    })
}
