//! What the planner is told of nodes and jobs.

ghost use Rattle.std.specs.Prelude.{◌≡◌, ◌≤◌, ◌<◌, ◌||◌, length, map, unwrap_or, IsTrue, IfOk, All};
ghost use Rattle.std.specs.List.Sorted.{IsSortedBy};
ghost use Rattle.node_state.specs.Partitions.{IsOnNodes};
ghost use Rattle.ctl_state.specs.Planning;

use crate::job_nodes::nodes_among;
use backfill_planner::{BarredList, NodeList, PlanJob};
use job_table::record::{JobRecord, Part};
use job_table::terms::Terms;
use node_state::bounds::bounds_of;
use node_state::partition_record::PartRecord;
use node_state::record::NodeRecord;
use node_state::standing::is_available;
use plain_data::limit::Limit;
use plain_data::ranged::Ranged;
use resource_profile::{Need, NodeRoom};
use small_texts::memory_error::Memory;
use small_texts::name::Name;
use std::alloc::Global;

/// What the nodes have in all, as a plan may use it.
pub fn rooms_of(alloc: Global, nodes: &[NodeRecord]) -> Result<Vec<NodeRoom>, Memory>
    ensures { IfOk result (λ rooms. rooms.items ≡ map Planning.room_of nodes.now) }
{
    Ok(
        nodes
            .iter()
            .map(|node| NodeRoom {
                cpus: node.conf.cpus.get() as u32,
                mem: node.conf.mem.get(),
                usable: is_available(node),
            })
            .collect(alloc)?,
    )
}

/// The same, as if all nodes were available.
pub fn open_rooms_of(alloc: Global, nodes: &[NodeRecord]) -> Result<Vec<NodeRoom>, Memory>
    ensures { IfOk result (λ rooms. rooms.items ≡ map Planning.open_room nodes.now) }
{
    Ok(
        nodes
            .iter()
            .map(|node| NodeRoom {
                cpus: node.conf.cpus.get() as u32,
                mem: node.conf.mem.get(),
                usable: true,
            })
            .collect(alloc)?,
    )
}

// The weight of the node at a place.
fn weight_at(nodes: &[NodeRecord], place: u32) -> u64
    ensures { result ≡ Planning.weight_at nodes.now place }
{
    nodes
        .get(place as usize)
        .map_or(0, |node| node.conf.weight.get())
}

// Whether jobs take the node at one place before that at another.
fn is_taken_before(nodes: &[NodeRecord], one: u32, other: u32) -> bool
    ensures { result ≡ Planning.is_taken_before nodes.now one other }
{
    let weight = weight_at(nodes, one);
    let other_weight = weight_at(nodes, other);
    weight < other_weight || weight == other_weight && one < other
}

// Whether jobs take the places as they stand.
fn are_in_order(nodes: &[NodeRecord], places: &[u32]) -> bool
    ensures { IsTrue result → IsSortedBy (Planning.is_taken_before nodes.now) places.now }
{
    for i in 1..places.len() {
        if is_taken_before(nodes, places[i], places[i - 1]) {
            return false;
        }
    }
    true
}

// The places of a partition's nodes, in the order in which jobs take them. It sorts them where they don't stand so.
fn sorted_places(
    alloc: Global,
    nodes: &[NodeRecord],
    partition: &PartRecord,
) -> Result<Vec<u32>, Memory>
    ensures { IfOk result (λ order. order.items ≡ Planning.node_order nodes.now partition.now) }
{
    let mut order = Vec::from_slice(alloc, partition.nodes.as_slice())?;
    if are_in_order(nodes, &order) {
        return Ok(order);
    }
    order.sort_by_key(|place| (weight_at(nodes, *place), *place))?;
    Ok(order)
}

/// The places of a partition's nodes, in the order in which jobs take them, as a list that jobs can share. Linear
/// where they stand in that order; else it sorts them.
pub fn node_order(
    alloc: Global,
    nodes: &[NodeRecord],
    partition: &PartRecord,
) -> Result<NodeList, Memory>
    requires { IsOnNodes (length nodes.now) partition.now }
    ensures { IfOk result (λ order. order ≡ Planning.node_order nodes.now partition.now) }
{
    NodeList::from_vec(sorted_places(alloc, nodes, partition)?)
}

/// How many nodes a job on these terms may have in the partition, at least and at most: None where no number will do.
/// `--nodes` in sbatch(1), `MinNodes` and `MaxNodes` in slurm.conf(5).
pub fn bounds_in(partition: &PartRecord, terms: &Terms) -> Option<(u32, u32)>
    ensures { result ≡ Planning.bounds_in partition.now terms.now }
{
    bounds_of(partition, terms.tasks, terms.min_nodes, terms.max_nodes)
}

fn need_of(terms: &Terms, bounds: (u32, u32)) -> Result<Need, Memory>
    ensures tasks { IfOk result (λ need. 1 ≤ need.tasks) }
    ensures need { IfOk result (λ need. need
        ≡ record { tasks = terms.now.tasks; least = bounds.0; most = bounds.1; required = length terms.now.required }) }
{
    let (least, most) = bounds;
    let required = u32::try_from(terms.required.as_slice().len()).map_err(|_| Memory)?;
    Ok(Need {
        tasks: terms.tasks.get() as u32,
        least,
        most,
        required,
    })
}

// How many of its tasks run on one node, at most.
fn most_on_one(terms: &Terms) -> u32
    ensures { result ≡ unwrap_or terms.now.tasks_per_node terms.now.tasks }
{
    match terms.tasks_per_node {
        Some(count) => count.get() as u32,
        None => terms.tasks.get() as u32,
    }
}

// Whether the job has its nodes for itself.
fn is_alone(partition: &PartRecord, terms: &Terms) -> bool
    ensures { result ≡ (terms.now.exclusive || partition.now.conf.exclusive) }
{
    terms.exclusive || partition.conf.exclusive
}

fn seconds_of(limit: Limit) -> Option<Ranged<1, 3153600000>>
    ensures { result ≡ Planning.seconds_of limit }
{
    match limit {
        Limit::Minutes(minutes) => Some(Ranged::new(minutes.get() * 60)),
        Limit::Unlimited => None,
    }
}

/// What the job needs in its partition, on so many nodes at least and at most, where it may have the nodes at these
/// places, but for those times. A job that says nothing of its nodes shares the places, in constant time; for any other
/// it is linear in them, and for each of them in what the job names.
#[tactic(auto, unfolding(crate::specs::Planning::plan_job))]
pub fn plan_job(
    alloc: Global,
    nodes: &[NodeRecord],
    partition: &PartRecord,
    places: &NodeList,
    barred: BarredList,
    bounds: (u32, u32),
    job: &JobRecord,
) -> Result<PlanJob, Memory>
    requires { All (λ place. place < length nodes.now) places.now }
    ensures job { IfOk result (λ plan. plan
        ≡ Planning.plan_job nodes.now partition.now places.now barred bounds job.now) }
    ensures nodes { IfOk result (λ plan. All (λ node. node < length nodes.now) plan.nodes) }
    ensures tasks { IfOk result (λ plan. 1 ≤ plan.need.tasks) }
{
    let terms = job.terms();
    Ok(PlanJob {
        id: job.id,
        need: need_of(terms, bounds)?,
        cpus_per_task: terms.cpus_per_task,
        per_node: most_on_one(terms),
        mem_ask: terms.mem,
        exclusive: is_alone(partition, terms),
        nodes: nodes_among(alloc, nodes, terms, places)?,
        seconds: seconds_of(job.limit),
        barred,
    })
}

/// The names of the nodes of these parts. Linear in the parts.
pub fn names_of(alloc: Global, nodes: &[NodeRecord], parts: &[Part]) -> Result<Vec<Name>, Memory>
    ensures { IfOk result (λ names. names.items ≡ Planning.names_of nodes.now parts.now) }
{
    let mut names = Vec::with_capacity(alloc, parts.len())?;
    for part in parts {
        if let Some(node) = nodes.get(part.node as usize) {
            names.push(node.conf.name.copy()?)?;
        }
    }
    Ok(names)
}
