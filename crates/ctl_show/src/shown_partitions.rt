//! The rows of partitions.

ghost use Rattle.std.specs.Prelude.{◌≡◌, ◌^◌, ◌-◌, min, sum_by, length, IfOk};
ghost use Rattle.node_state.specs.Partitions.{IsOnNodes};
ghost use Rattle.ctl_state.specs.Soundness.{IsSound};
ghost use Rattle.ctl_state.specs.State.{state_of};
ghost use Rattle.ctl_show.specs.Records;

use crate::standing::is_asked;
use ctl_state::cluster::Cluster;
use node_state::partition_record::PartRecord;
use node_state::record::NodeRecord;
use plain_data::items::Items;
use reply_data::view::{PartRow, Row};
use small_texts::memory_error::Memory;
use small_texts::name::Name;
use std::alloc::Global;

/// The names of the nodes at places. Linear in these.
pub(crate) fn names_at(
    alloc: Global,
    nodes: &[NodeRecord],
    places: &[u32],
) -> Result<Vec<Name>, Memory>
    ensures { IfOk result (λ names. names.items ≡ Records.names_at nodes.now places.now) }
{
    let mut names = Vec::with_capacity(alloc, places.len())?;
    for place in places {
        if let Some(node) = nodes.get(*place as usize) {
            names.push(node.conf.name.copy()?)?;
        }
    }
    Ok(names)
}

// How many processors the node at the place has.
fn cpus_at(nodes: &[NodeRecord], place: u32) -> u64
    ensures { result ≡ Records.cpus_at nodes.now place }
{
    nodes
        .get(place as usize)
        .map_or(0, |node| node.conf.cpus.get())
}

// How many processors the nodes at places have. The count stands still at its type's end.
fn all_cpus_at(nodes: &[NodeRecord], places: &[u32]) -> u64
    ensures { result ≡ min (sum_by (Records.cpus_at nodes.now) places.now) (2 ^ 64 - 1) }
{
    let mut count = 0_u64;
    for place in places {
        count = count.saturating_add(cpus_at(nodes, *place));
    }
    count
}

// What is shown of the partition.
#[tactic(auto, unfolding(crate::specs::Records::partition_row))]
fn partition_row(
    alloc: Global,
    cluster: &Cluster,
    partition: &PartRecord,
) -> Result<PartRow, Memory>
    requires sound { IsSound (state_of cluster.now) }
    requires there { IsOnNodes (length cluster.now.nodes.records) partition.now }
    ensures { IfOk result (λ row. row ≡ Records.partition_row (state_of cluster.now) partition.now) }
{
    let names = names_at(alloc, cluster.nodes.records(), partition.nodes.as_slice())?;
    let cpus = all_cpus_at(cluster.nodes.records(), partition.nodes.as_slice());
    Ok(PartRow {
        name: partition.conf.name.copy()?,
        is_default: partition.conf.is_default,
        state: partition.state,
        max_time: partition.conf.max_time,
        default_time: partition.conf.default_time,
        min_nodes: partition.conf.min_nodes,
        max_nodes: partition.conf.max_nodes,
        tier: partition.conf.tier.get(),
        factor: partition.conf.factor.get(),
        nodes: Items::from_vec(names),
        cpus,
    })
}

/// The rows of the partitions that are asked for. Linear in the partitions, and in the nodes of those that are shown.
pub(crate) fn partition_rows(
    alloc: Global,
    cluster: &Cluster,
    asked: &Option<Name>,
) -> Result<Vec<Row>, Memory>
    requires { IsSound (state_of cluster.now) }
    ensures { IfOk result (λ rows. rows.items ≡ Records.partition_rows (state_of cluster.now) asked.now) }
{
    let mut rows = Vec::new(alloc);
    for partition in cluster.partitions.records() {
        if is_asked(asked, partition) {
            rows.push(Row::Partition(partition_row(alloc, cluster, partition)?))?;
        }
    }
    Ok(rows)
}
