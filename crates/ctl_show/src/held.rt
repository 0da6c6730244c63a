//! What the parts of the jobs hold of the nodes.

ghost use Rattle.std.specs.Prelude.{◌≡◌, [], ◌++◌, ◌<◌, List, All, IfOk, length};
ghost use Rattle.job_table.specs.declared.record.Part.{Part};
ghost use Rattle.ctl_state.specs.Holding.{parts_of, mem_in};
ghost use Rattle.ctl_state.specs.State.{state_of};
ghost use Rattle.ctl_state.specs.Soundness.{IsSound};
ghost use Rattle.ctl_show.specs.Found.{CountsParts};
ghost use Rattle.ctl_show.specs.Standing.{cpus_in};

use ctl_state::cluster::Cluster;
use job_table::record::{JobRecord, Part};
use small_texts::memory_error::Memory;
use std::alloc::Global;

// Adds to the counts of the nodes the processors that the parts hold of them. A count stands still at its type's end.
fn count_cpus(counts: &mut [u64], parts: &[Part])
    requires { All (λ (part : Part). part.node < length counts.old) parts.now }
    ensures { (before : List Part) → CountsParts cpus_in before counts.old
        → CountsParts cpus_in (before ++ parts.now) counts.new }
{
    for part in parts {
        let node = part.node as usize;
        counts[node] = counts[node].saturating_add(part.cpus.len() as u64);
    }
}

// The same of their megabytes.
fn count_mem(counts: &mut [u64], parts: &[Part])
    requires { All (λ (part : Part). part.node < length counts.old) parts.now }
    ensures { (before : List Part) → CountsParts mem_in before counts.old
        → CountsParts mem_in (before ++ parts.now) counts.new }
{
    for part in parts {
        let node = part.node as usize;
        counts[node] = counts[node].saturating_add(part.mem);
    }
}

fn count_cpus_of_jobs(counts: &mut [u64], jobs: &[JobRecord])
    requires { All (λ (part : Part). part.node < length counts.old) (parts_of jobs.now) }
    ensures { CountsParts cpus_in [] counts.old → CountsParts cpus_in (parts_of jobs.now) counts.new }
{
    for job in jobs {
        count_cpus(counts, job.parts.as_slice());
    }
}

fn count_mem_of_jobs(counts: &mut [u64], jobs: &[JobRecord])
    requires { All (λ (part : Part). part.node < length counts.old) (parts_of jobs.now) }
    ensures { CountsParts mem_in [] counts.old → CountsParts mem_in (parts_of jobs.now) counts.new }
{
    for job in jobs {
        count_mem(counts, job.parts.as_slice());
    }
}

/// How many processors of each node are held. Linear in the nodes and the jobs' parts.
pub(crate) fn cpus_held(alloc: Global, cluster: &Cluster) -> Result<Vec<u64>, Memory>
    requires { IsSound (state_of cluster.now) }
    ensures len { IfOk result (λ held. length held.items ≡ length cluster.now.nodes.records) }
    ensures counts { IfOk result (λ held. CountsParts cpus_in (parts_of cluster.now.jobs.records) held.items) }
{
    let mut held = vec![in alloc; 0; cluster.nodes.records().len()]?;
    count_cpus_of_jobs(&mut held, cluster.jobs.records());
    Ok(held)
}

/// How many megabytes of each node are held. Linear in the nodes and the jobs' parts.
pub(crate) fn mem_held(alloc: Global, cluster: &Cluster) -> Result<Vec<u64>, Memory>
    requires { IsSound (state_of cluster.now) }
    ensures len { IfOk result (λ held. length held.items ≡ length cluster.now.nodes.records) }
    ensures counts { IfOk result (λ held. CountsParts mem_in (parts_of cluster.now.jobs.records) held.items) }
{
    let mut held = vec![in alloc; 0; cluster.nodes.records().len()]?;
    count_mem_of_jobs(&mut held, cluster.jobs.records());
    Ok(held)
}
