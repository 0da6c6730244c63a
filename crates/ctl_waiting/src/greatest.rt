//! What a job's processors, its partition's factor and its quality's priority are measured by.

ghost use Rattle.std.specs.Prelude.{◌≡◌, ◌≤◌, fold, max, option_map, slice_get, unwrap_or};
ghost use Rattle.node_state.specs.declared.record.NodeRecord.{NodeRecord};
ghost use Rattle.node_state.specs.declared.partition_record.PartRecord.{PartRecord};
ghost use Rattle.run_limits.specs.declared.record.QosRecord.{QosRecord};
ghost use Rattle.ctl_waiting.specs.Priority as spec;
ghost use Rattle.ctl_state.specs.State.{state_of};

use ctl_state::cluster::Cluster;
use node_state::nodes::Nodes;
use node_state::partition_record::PartRecord;
use run_limits::record::QosRecord;

// The processors of the node at a place.
fn cpus_at(nodes: &Nodes, place: u32) -> u64
    ensures value { result
        ≡ unwrap_or (option_map (λ (node : NodeRecord). node.conf.cpus) (slice_get nodes.now.records place)) 0 }
    ensures small { result ≤ 1024 }
{
    match nodes.at(place) {
        Some(node) => node.conf.cpus.get(),
        None => 0,
    }
}

/// The processors of all nodes, of those that are down or drained too. Linear in the nodes.
pub(crate) fn all_cpus(cluster: &Cluster) -> u64
    ensures { result ≡ spec.all_cpus (state_of cluster.now) }
{
    let mut cpus = 0;
    for place in 0..cluster.nodes.len() {
        cpus += cpus_at(&cluster.nodes, place);
    }
    cpus
}

// The greatest factor of these partitions, 0 of none.
fn factor_among(partitions: &[PartRecord]) -> u64
    ensures { result ≡ fold (λ greatest (partition : PartRecord). max greatest partition.conf.factor) 0 partitions.now }
{
    partitions.iter().fold(
        0,
        |greatest: u64, partition| greatest.max(partition.conf.factor.get()),
    )
}

/// The greatest `PriorityJobFactor`, 0 without partitions. Linear in them.
pub(crate) fn greatest_factor(cluster: &Cluster) -> u64
    ensures { result ≡ spec.greatest_factor (state_of cluster.now) }
{
    factor_among(cluster.partitions.records())
}

// The greatest priority of these qualities of service, 0 of none.
fn priority_among(qos: &[QosRecord]) -> u32
    ensures { result ≡ fold (λ greatest (one : QosRecord). max greatest one.conf.priority) 0 qos.now }
{
    qos.iter()
        .fold(0, |greatest: u32, one| greatest.max(one.conf.priority))
}

/// The greatest priority of a quality of service, 0 without these. Linear in them.
pub(crate) fn greatest_qos(cluster: &Cluster) -> u32
    ensures { result ≡ spec.greatest_qos (state_of cluster.now) }
{
    priority_among(cluster.assocs.qos())
}
