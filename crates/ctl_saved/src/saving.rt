//! All that is saved.

ghost use Rattle.std.specs.Prelude.{◌≡◌, IfOk};
ghost use Rattle.saved_data.specs.Order.{IsInOrder};
ghost use Rattle.ctl_state.specs.Soundness.{IsSound};
ghost use Rattle.ctl_state.specs.State.{state_of};
ghost use Rattle.ctl_saved.specs.Saving.{StandsInOrder, saved_of};

use crate::accounts::saved_usages;
use crate::jobs::{saved_arrays, saved_jobs};
use crate::nodes::{copied_dropped, saved_nodes, saved_partitions, saved_reservations};
use crate::plan::saved_plan;
use ctl_core::controller::Ctl;
use ctl_state::cluster::Cluster;
use plain_data::items::Items;
use saved_data::saved::Saved;
use small_texts::memory_error::Memory;
use std::alloc::Global;

/// What is saved of a cluster of which all is true that a controller keeps.
#[tactic(auto, unfolding(crate::specs::Saving::saved_of))]
pub fn saved_cluster(alloc: Global, cluster: &Cluster) -> Result<Saved, Memory>
    requires { IsSound (state_of cluster.now) }
    ensures { IfOk result (λ saved. saved ≡ saved_of (state_of cluster.now)) }
{
    let nodes = cluster.nodes.records();
    let partitions = cluster.partitions.records();
    let jobs = &cluster.jobs;
    Ok(Saved {
        moment: cluster.moment,
        next_id: cluster.next_id,
        partitions: Items::from_vec(saved_partitions(alloc, partitions)?),
        nodes: Items::from_vec(saved_nodes(alloc, nodes)?),
        dropped: Items::from_vec(copied_dropped(alloc, cluster.dropped.as_slice())?),
        usage: Items::from_vec(saved_usages(alloc, &cluster.assocs, jobs.usage())?),
        reservations: Items::from_vec(saved_reservations(alloc, cluster.reservations.records())?),
        arrays: Items::from_vec(saved_arrays(alloc, cluster.arrays.as_slice())?),
        jobs: Items::from_vec(saved_jobs(alloc, partitions, nodes, jobs.records())?),
        plan: Items::from_vec(saved_plan(
            alloc,
            nodes,
            cluster.gone.as_slice(),
            cluster.plan.as_slice(),
        )?),
    })
}

/// What is saved of the controller's cluster: all but its history, the plan that it keeps for the next pass, the sum of
/// sizes and whether a shutdown was accepted (own). Jobs share their terms with what is saved. Linear in what is kept.
pub fn saved(alloc: Global, ctl: &Ctl) -> Result<Saved, Memory>
    ensures saved { IfOk result (λ saved. saved ≡ saved_of ctl.now.state) }
    ensures order { IfOk result (λ saved. StandsInOrder ctl.now.state → IsInOrder saved) }
{
    saved_cluster(alloc, ctl.cluster())
}
