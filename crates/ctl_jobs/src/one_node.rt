//! Whether one node alone could run a job.

ghost use Rattle.std.specs.Prelude.{◌≡◌, ◌≤◌, true, IsTrue};
ghost use Rattle.std.specs.List.{list_any};
ghost use Rattle.backfill_planner.specs.OneNode.{AsksSomeMem};
ghost use Rattle.ctl_state.specs.Planning.{is_at};
ghost use Rattle.ctl_state.specs.State.{state_of};
ghost use Rattle.ctl_jobs.specs.OneNode;
ghost use Rattle.ctl_jobs.specs.Submission;

use crate::placeable::own_bounds;
use backfill_planner::laws::one_node_is_enough;
use ctl_state::cluster::Cluster;
use ctl_state::job_nodes::may_run;
use ctl_state::laws::a_stable_sort_makes_the_order;
use job_table::record::JobRecord;
use job_table::terms::Terms;
use node_state::partition_record::PartRecord;
use node_state::record::NodeRecord;
use plain_data::mem_ask::MemAsk;

// Whether one node may be enough for the job, and any may be the one on which it may run.
fn may_be_on_one(terms: &Terms) -> bool
    ensures { IsTrue result → OneNode.MayBeOnOne terms.now }
{
    if terms.reservation.is_some() || !terms.required.as_slice().is_empty() {
        return false;
    }
    let (least, most) = own_bounds(terms);
    if 1 < least || most < 1 {
        return false;
    }
    match terms.tasks_per_node {
        Some(count) => terms.tasks.get() <= count.get(),
        None => true,
    }
}

// The processors that all tasks of the job take.
fn cpus_of_all(terms: &Terms) -> u64
    ensures value { result ≡ OneNode.cpus_of_all terms.now }
    ensures small { result ≤ 1073741824 }
    ensures tasks { 1 ≤ terms.now.tasks }
    ensures each { 1 ≤ terms.now.cpus_per_task }
{
    terms.tasks.get() * terms.cpus_per_task.get()
}

// The megabytes of one node that so many processors take.
fn mem_on_one(mem: MemAsk, cpus: u64) -> u64
    requires { cpus ≤ 1073741824 }
    ensures value { result ≡ OneNode.mem_on_one mem cpus }
    ensures asks { AsksSomeMem mem }
{
    match mem {
        MemAsk::All => 0,
        MemAsk::PerNode(asked) => asked.get(),
        MemAsk::PerCpu(asked) => asked.get() * cpus,
    }
}

// Whether the job may run on the node, and the node has so many processors and megabytes.
fn has_room(node: &NodeRecord, terms: &Terms, cpus: u64, mem: u64) -> bool
    ensures { result ≡ OneNode.has_room cpus mem terms.now node.now }
{
    cpus <= node.conf.cpus.get() && mem <= node.conf.mem.get() && may_run(terms, node)
}

// Whether there is such a node at the place.
fn has_room_at(nodes: &[NodeRecord], place: u32, terms: &Terms, cpus: u64, mem: u64) -> bool
    ensures { result ≡ is_at (OneNode.has_room cpus mem terms.now) nodes.now place }
{
    nodes
        .get(place as usize)
        .is_some_and(|node| has_room(node, terms, cpus, mem))
}

// Whether there is one at some place of the partition.
fn any_has_room(
    nodes: &[NodeRecord],
    partition: &PartRecord,
    terms: &Terms,
    cpus: u64,
    mem: u64,
) -> bool
    ensures { result ≡ list_any (is_at (OneNode.has_room cpus mem terms.now) nodes.now) partition.now.nodes }
{
    partition
        .nodes
        .iter()
        .any(|place| has_room_at(nodes, *place, terms, cpus, mem))
}

/// Whether one node of the partition alone could run the job if it were free and available, as far as that is seen
/// without a plan: not where the job names a reservation or nodes that it must have. It looks at the partition's nodes
/// up to the first that could, and takes no memory.
#[tactic(auto, unfolding(crate::specs::Submission::is_placeable))]
pub(crate) fn one_node_could_run(cluster: &Cluster, partition: &PartRecord, job: &JobRecord) -> bool
    ensures { IsTrue result → Submission.is_placeable (state_of cluster.now) partition.now job.now ≡ true }
{
    one_node_is_enough();
    a_stable_sort_makes_the_order::<u32>();
    let terms = job.terms();
    if !may_be_on_one(terms) {
        return false;
    }
    let cpus = cpus_of_all(terms);
    let mem = mem_on_one(terms.mem, cpus);
    any_has_room(cluster.nodes.records(), partition, terms, cpus, mem)
}
