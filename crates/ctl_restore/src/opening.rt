//! The cluster of the two files, before any request.

ghost use Rattle.std.specs.Prelude.{◌≡◌, All, IfOk};
ghost use Rattle.node_state.specs.Held.{HoldsNothing};
ghost use Rattle.ctl_state.specs.Soundness.{HasLimits, HasRanges, IsLimit, IsNode, IsSound};
ghost use Rattle.ctl_state.specs.State.{opening, state_of};

use ctl_state::cluster::Cluster;
use job_table::jobs::Jobs;
use node_state::nodes::Nodes;
use node_state::partition_record::PartRecord;
use node_state::partitions::Partitions;
use node_state::record::NodeRecord;
use node_state::reservations::Reservations;
use plain_data::assoc::AssocFile;
use plain_data::conf::{Conf, Settings};
use plain_data::limit::Limit;
use run_limits::assocs::Assocs;
use small_texts::memory_error::Memory;
use std::alloc::Global;

/// The cluster that the two files describe, before any request. Linear in them.
pub fn opened(alloc: Global, conf: Conf, assocs: AssocFile) -> Result<Cluster, Memory>
    ensures state { IfOk result (λ cluster. state_of cluster ≡ opening conf assocs) }
    ensures sound { IfOk result (λ cluster. IsSound (state_of cluster)) }
    ensures holds { IfOk result (λ cluster. HoldsNothing cluster.nodes.held) }
{
    settings_in_range(&conf.settings);
    let nodes = Nodes::build(alloc, conf.nodes.into_vec())?;
    nodes_in_range(nodes.records());
    let partitions = Partitions::build(alloc, conf.partitions.into_vec(), &nodes)?;
    partitions_in_range(partitions.records());
    let assocs = Assocs::build(alloc, assocs)?;
    let jobs = Jobs::new(alloc, assocs.records().len())?;
    Ok(Cluster {
        next_id: conf.settings.first_job_id.get() as u32,
        settings: conf.settings,
        partitions,
        nodes,
        dropped: Vec::new(alloc),
        assocs,
        reservations: Reservations::new(alloc),
        jobs,
        arrays: Vec::new(alloc),
        plan: Vec::new(alloc),
        gone: Vec::new(alloc),
        size: 0,
        is_shut: false,
        moment: 0,
    })
}

// It tells what the type of nodes keeps of them.
fn nodes_in_range(nodes: &[NodeRecord])
    ensures { All IsNode nodes.now }
{
    for node in nodes {
        let _ = node.conf.cpus.get();
        let _ = node.conf.mem.get();
    }
}

fn is_limit(limit: &Limit)
    ensures { IsLimit limit.now }
{
    if let Limit::Minutes(minutes) = limit {
        let _ = minutes.get();
    }
}

fn has_limits(partition: &PartRecord)
    ensures { HasLimits partition.now }
{
    is_limit(&partition.conf.max_time);
    if let Some(limit) = &partition.conf.default_time {
        is_limit(limit);
    }
}

// It tells what the type of partitions keeps of them.
fn partitions_in_range(partitions: &[PartRecord])
    ensures { All HasLimits partitions.now }
{
    for partition in partitions {
        has_limits(partition);
    }
}

// It tells what the type of settings keeps of them.
fn settings_in_range(settings: &Settings)
    ensures { HasRanges settings.now }
{
    let _ = settings.bf_window.get();
    let _ = settings.min_job_age.get();
}
