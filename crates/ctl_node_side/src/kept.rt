//! What is kept of a cluster while nodes fall silent, so that it can be put back where memory is wanting later on.

ghost use Rattle.std.specs.Prelude.{◌≡◌, IfOk, filter};
ghost use Rattle.plain_data.specs.Rows.{has_id};
ghost use Rattle.ctl_nodes.specs.Failing;
ghost use Rattle.ctl_node_side.specs.Keeping;

use ctl_nodes::loses;
use ctl_state::cluster::Cluster;
use job_table::jobs::Jobs;
use job_table::record::JobRecord;
use node_state::nodes::Nodes;
use plain_data::NodePlaces;
use small_texts::memory_error::Memory;
use std::alloc::Global;

/// What is kept of a cluster while nodes fall silent (own).
#[derive(Drop)]
pub(crate) struct Kept {
    /// The jobs that hold something of these nodes.
    pub(crate) jobs: Vec<JobRecord>,
    /// What the associations have used.
    pub(crate) usage: Vec<u64>,
    pub(crate) nodes: Nodes,
    pub(crate) moment: u64,
}

// Copies of the jobs that hold something of these nodes.
fn copy_losing(
    alloc: Global,
    silent: &NodePlaces,
    jobs: &[JobRecord],
) -> Result<Vec<JobRecord>, Memory>
    ensures { IfOk result (λ copies. copies.items ≡ filter (Failing.loses (has_id silent.now)) jobs.now) }
{
    let mut copies = Vec::new(alloc);
    for job in jobs {
        if loses(silent, job) {
            copies.push(job.copy(alloc)?)?;
        }
    }
    Ok(copies)
}

/// Keeps what falls with these nodes. Linear in the jobs, the associations and the nodes; it copies those jobs alone that
/// hold something of these nodes.
pub(crate) fn keep(alloc: Global, cluster: &Cluster, silent: &NodePlaces) -> Result<Kept, Memory>
    ensures { IfOk result (Keeping.Keeps (has_id silent.now) cluster.now) }
{
    let jobs = copy_losing(alloc, silent, cluster.jobs.records())?;
    let usage = Vec::from_slice(alloc, cluster.jobs.usage())?;
    let nodes = cluster.nodes.copy(alloc)?;
    Ok(Kept {
        jobs,
        usage,
        nodes,
        moment: cluster.moment,
    })
}

// Puts these jobs back, each in the place of the one with its number.
fn put_jobs_back(jobs: &mut Jobs, kept: Vec<JobRecord>)
    ensures records { jobs.new.records ≡ Keeping.put_all kept.items jobs.old.records }
    ensures usage { jobs.new.usage ≡ jobs.old.usage }
{
    for job in kept {
        jobs.put_back(job);
    }
}

/// Puts back what was kept. Linear in it; it takes no memory.
pub(crate) fn put_back(cluster: &mut Cluster, kept: Kept)
    ensures { cluster.new ≡ Keeping.put_back kept cluster.old }
{
    put_jobs_back(&mut cluster.jobs, kept.jobs);
    cluster.jobs.put_usage_back(kept.usage);
    cluster.nodes = kept.nodes;
    cluster.moment = kept.moment;
}
