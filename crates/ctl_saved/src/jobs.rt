//! What is saved of jobs and of arrays.

ghost use Rattle.std.specs.Prelude.{◌≡◌, ◌<◌, IfOk, length, map};
ghost use Rattle.ctl_state.specs.Soundness.{AreOfPartitions};
ghost use Rattle.ctl_saved.specs.Saving as spec;

use crate::nodes::name_at;
use ctl_state::record::ArrayRecord;
use job_table::record::{JobRecord, Part};
use node_state::partition_record::PartRecord;
use node_state::record::NodeRecord;
use plain_data::items::Items;
use reply_data::view::NamedPart;
use saved_data::job::SavedJob;
use saved_data::parts::SavedArray;
use small_texts::memory_error::Memory;
use std::alloc::Global;

fn named_part(nodes: &[NodeRecord], part: &Part) -> Result<Option<NamedPart>, Memory>
    ensures { IfOk result (λ named. named ≡ spec.named_part nodes.now part.now) }
{
    match name_at(nodes, part.node)? {
        Some(node) => Ok(Some(NamedPart {
            node,
            cpus: part.cpus.copy(),
            mem: part.mem,
        })),
        None => Ok(None),
    }
}

fn named_parts(
    alloc: Global,
    nodes: &[NodeRecord],
    parts: &[Part],
) -> Result<Vec<NamedPart>, Memory>
    ensures { IfOk result (λ named. named.items ≡ spec.named_parts nodes.now parts.now) }
{
    let mut named = Vec::with_capacity(alloc, parts.len())?;
    for part in parts {
        if let Some(one) = named_part(nodes, part)? {
            named.push(one)?;
        }
    }
    Ok(named)
}

#[tactic(auto, unfolding(crate::specs::Saving::saved_job))]
fn saved_job(
    alloc: Global,
    partitions: &[PartRecord],
    nodes: &[NodeRecord],
    job: &JobRecord,
) -> Result<SavedJob, Memory>
    requires { job.now.partition < length partitions.now }
    ensures { IfOk result (λ saved. saved ≡ spec.saved_job partitions.now nodes.now job.now) }
{
    let parts = named_parts(alloc, nodes, job.parts.as_slice())?;
    Ok(SavedJob {
        id: job.id,
        array: job.array,
        index: job.index,
        user: job.user.copy()?,
        terms: job.terms.share()?,
        partition: partitions[job.partition as usize].conf.name.copy()?,
        limit: job.limit,
        nice: job.nice,
        submit: job.submit,
        eligible: job.eligible,
        held_by: job.held_by,
        state: job.state,
        starts: job.starts,
        started: job.started,
        ended: job.ended,
        exit: job.exit,
        last_nodes: job.last_nodes.copy()?,
        parts: Items::from_vec(parts),
    })
}

/// What is saved of the jobs, which share their terms with what is saved. Linear in them, in what they hold and in the
/// names of their nodes.
pub fn saved_jobs(
    alloc: Global,
    partitions: &[PartRecord],
    nodes: &[NodeRecord],
    jobs: &[JobRecord],
) -> Result<Vec<SavedJob>, Memory>
    requires { AreOfPartitions partitions.now jobs.now }
    ensures { IfOk result (λ saved. saved.items ≡ map (spec.saved_job partitions.now nodes.now) jobs.now) }
{
    let mut saved = Vec::with_capacity(alloc, jobs.len())?;
    for job in jobs {
        saved.push(saved_job(alloc, partitions, nodes, job)?)?;
    }
    Ok(saved)
}

fn saved_array(alloc: Global, array: &ArrayRecord) -> Result<SavedArray, Memory>
    ensures { IfOk result (λ saved. saved ≡ spec.saved_array array.now) }
{
    let indices = Vec::from_slice(alloc, array.indices.iter().as_slice())?;
    Ok(SavedArray {
        id: array.id,
        indices: Items::from_vec(indices),
    })
}

pub fn saved_arrays(alloc: Global, arrays: &[ArrayRecord]) -> Result<Vec<SavedArray>, Memory>
    ensures { IfOk result (λ saved. saved.items ≡ map spec.saved_array arrays.now) }
{
    let mut saved = Vec::with_capacity(alloc, arrays.len())?;
    for array in arrays {
        saved.push(saved_array(alloc, array)?)?;
    }
    Ok(saved)
}
