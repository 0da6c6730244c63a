//! Whether a job could ever run.

ghost use Rattle.std.specs.Prelude.{◌≡◌, IfOk, length};
ghost use Rattle.node_state.specs.Partitions.{IsOnNodes};
ghost use Rattle.ctl_state.specs.Planning;
ghost use Rattle.ctl_state.specs.State.{state_of};
ghost use Rattle.ctl_state.specs.Soundness.{IsSound};
ghost use Rattle.ctl_jobs.specs.Submission;

use crate::one_node::one_node_could_run;
use backfill_planner::{BarredList, NodeList, fits_empty_nodes};
use ctl_state::cluster::Cluster;
use ctl_state::laws::jobs_get_nodes_that_are_there;
use ctl_state::planning::{node_order, open_rooms_of, plan_job};
use ctl_state::reserved::places_in;
use job_table::record::JobRecord;
use job_table::terms::Terms;
use node_state::partition_record::PartRecord;
use small_texts::memory_error::Memory;
use std::alloc::Global;

// How many nodes a job may have by itself, at least and at most. `--nodes` in sbatch(1).
pub(crate) fn own_bounds(terms: &Terms) -> (u32, u32)
    ensures { result ≡ Submission.own_bounds terms.now }
{
    let tasks = terms.tasks.get() as u32;
    let most = terms.max_nodes.map_or(tasks, |most| most.get() as u32);
    (terms.min_nodes.get() as u32, tasks.min(most))
}

// Those of the partition's nodes that the job may have by the reservation that it names, in the order in which it takes
// them.
#[tactic(auto, unfolding(ctl_state::specs::Planning::places_for))]
fn places_for(
    alloc: Global,
    cluster: &Cluster,
    partition: &PartRecord,
    terms: &Terms,
) -> Result<NodeList, Memory>
    requires { IsOnNodes (length cluster.now.nodes.records) partition.now }
    ensures { IfOk result (λ places. places
        ≡ Planning.places_for cluster.now.nodes.records cluster.now.reservations partition.now terms.now.reservation) }
{
    let order = node_order(alloc, cluster.nodes.records(), partition)?;
    let Some(name) = &terms.reservation else {
        return Ok(order);
    };
    match cluster.reservations.find(name) {
        Some(reservation) => places_in(alloc, reservation, &order),
        None => NodeList::from_vec(Vec::new(alloc)),
    }
}

/// Whether some nodes of the partition could run the job if all were free and available (own). It looks at the
/// partition's nodes up to the first that could run it alone. Where none could, or the job names a reservation or nodes
/// that it must have, it is linear in all nodes; then it sorts the partition's where they don't stand in order.
#[tactic(auto, unfolding(crate::specs::Submission::is_placeable))]
pub(crate) fn is_placeable(
    alloc: Global,
    cluster: &Cluster,
    partition: &PartRecord,
    job: &JobRecord,
) -> Result<bool, Memory>
    requires sound { IsSound (state_of cluster.now) }
    requires there { IsOnNodes (length cluster.now.nodes.records) partition.now }
    ensures { IfOk result (λ could. could ≡ Submission.is_placeable (state_of cluster.now) partition.now job.now) }
{
    if one_node_could_run(cluster, partition, job) {
        return Ok(true);
    }
    jobs_get_nodes_that_are_there();
    let nodes = cluster.nodes.records();
    let places = places_for(alloc, cluster, partition, job.terms())?;
    let bounds = own_bounds(job.terms());
    let anytime = BarredList::from_vec(Vec::new(alloc))?;
    let job = plan_job(alloc, nodes, partition, &places, anytime, bounds, job)?;
    let rooms = open_rooms_of(alloc, nodes)?;
    fits_empty_nodes(alloc, &rooms, &job)
}
