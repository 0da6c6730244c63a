//! The jobs, by what is saved of them.

ghost use Rattle.std.specs.Prelude.{◌≡◌, ◌↔◌, IfOk, IsTrue, All, map, Some, is_some, true};
ghost use Rattle.run_limits.specs.Accounts.{qos_meant};
ghost use Rattle.ctl_state.specs.State.{state_of};
ghost use Rattle.ctl_restore.specs.Fits.{IsKnownJob};
ghost use Rattle.ctl_restore.specs.Restored as spec;
ghost use Rattle.ctl_restore.specs.Steps.{LeadsToUsers};
ghost use Rattle.reply_data.specs.declared.view.NamedPart.{NamedPart as OnePart};

use crate::accounts::place_in;
use ctl_state::cluster::Cluster;
use job_table::record::{JobRecord, Part};
use node_state::nodes::Nodes;
use plain_data::items::Items;
use reply_data::view::NamedPart;
use saved_data::job::SavedJob;
use small_texts::memory_error::Memory;
use small_texts::name::Name;
use std::alloc::Global;
use std::collections::HashMap;

fn restored_part(nodes: &Nodes, part: &NamedPart) -> Part
    ensures { result ≡ spec.restored_part nodes.now.records part.now }
{
    Part {
        node: nodes.find(&part.node).unwrap_or(0),
        cpus: part.cpus.copy(),
        mem: part.mem,
    }
}

fn restored_parts(alloc: Global, nodes: &Nodes, parts: &[NamedPart]) -> Result<Vec<Part>, Memory>
    ensures { IfOk result (λ restored. restored.items ≡ map (spec.restored_part nodes.now.records) parts.now) }
{
    let mut restored = Vec::with_capacity(alloc, parts.len())?;
    for part in parts {
        restored.push(restored_part(nodes, part))?;
    }
    Ok(restored)
}

#[tactic(auto, unfolding(crate::specs::Restored::restored_job))]
fn restored_job(
    alloc: Global,
    cluster: &Cluster,
    users: &HashMap<Name, usize>,
    job: &SavedJob,
) -> Result<JobRecord, Memory>
    requires { LeadsToUsers cluster.now.assocs.records users.now }
    ensures { IfOk result (λ restored. restored ≡ spec.restored_job (state_of cluster.now) job.now) }
{
    let terms = job.terms.get();
    let assoc = place_in(&cluster.assocs, users, &job.user, &terms.account).unwrap_or(0);
    let qos = cluster.assocs.find_qos(Some(&terms.qos)).unwrap_or(0);
    let partition = cluster.partitions.find(Some(&job.partition)).unwrap_or(0);
    let parts = restored_parts(alloc, &cluster.nodes, job.parts.as_slice())?;
    Ok(JobRecord {
        id: job.id,
        array: job.array,
        index: job.index,
        user: job.user.copy()?,
        terms: job.terms.share()?,
        assoc,
        qos,
        partition,
        submit: job.submit,
        eligible: job.eligible,
        limit: job.limit,
        nice: job.nice,
        held_by: job.held_by,
        state: job.state,
        starts: job.starts,
        parts: Items::from_vec(parts),
        started: job.started,
        ended: job.ended,
        exit: job.exit,
        last_nodes: job.last_nodes.copy()?,
    })
}

/// The jobs, with the places of what they name in a cluster that has only opened. Linear in them and in what they hold, and
/// for each of them linear in the partitions and the qualities of service.
pub fn restored_jobs(
    alloc: Global,
    cluster: &Cluster,
    users: &HashMap<Name, usize>,
    jobs: &[SavedJob],
) -> Result<Vec<JobRecord>, Memory>
    requires { LeadsToUsers cluster.now.assocs.records users.now }
    ensures { IfOk result (λ restored. restored.items ≡ map (spec.restored_job (state_of cluster.now)) jobs.now) }
{
    let mut restored = Vec::with_capacity(alloc, jobs.len())?;
    for job in jobs {
        restored.push(restored_job(alloc, cluster, users, job)?)?;
    }
    Ok(restored)
}
