//! How the nodes of partitions stand.

ghost use Rattle.std.specs.Prelude.{◌≡◌, ◌∷◌, [], ◌++◌, ℕ, min, IfOk, OnOk, slice_get, option_copied, option_to_list};
ghost use Rattle.ctl_state.specs.State.{state_of};
ghost use Rattle.ctl_state.specs.Soundness.{IsSound};
ghost use Rattle.ctl_show.specs.Found.{GroupsNodes, last_count};
ghost use Rattle.ctl_show.specs.Standing;

use crate::held::cpus_held;
use ctl_state::cluster::Cluster;
use node_state::partition_record::PartRecord;
use node_state::record::NodeRecord;
use node_state::standing::is_up;
use plain_data::items::Items;
use reply_data::view::{NodeGroup, Row, StateRow};
use small_texts::memory_error::Memory;
use small_texts::name::Name;
use std::alloc::Global;

// The ways in which a node may stand, in the order of the lines.
const GROUPS: [NodeGroup; 6] = [
    NodeGroup::Down,
    NodeGroup::Draining,
    NodeGroup::Drained,
    NodeGroup::Allocated,
    NodeGroup::Mixed,
    NodeGroup::Idle,
];

/// How the node stands of which so many processors are held, as far as they are counted.
pub(crate) fn group_of(node: &NodeRecord, held: u64) -> NodeGroup
    ensures { (count : ℕ) → held ≡ min count last_count → result ≡ Standing.group_by count node.now }
{
    if !is_up(node) {
        NodeGroup::Down
    } else if node.drain && held > 0 {
        NodeGroup::Draining
    } else if node.drain {
        NodeGroup::Drained
    } else if held == node.conf.cpus.get() {
        NodeGroup::Allocated
    } else if held > 0 {
        NodeGroup::Mixed
    } else {
        NodeGroup::Idle
    }
}

// How each node stands.
fn groups_of(alloc: Global, cluster: &Cluster) -> Result<Vec<NodeGroup>, Memory>
    requires { IsSound (state_of cluster.now) }
    ensures { IfOk result (λ groups. GroupsNodes (state_of cluster.now) groups.items) }
{
    let held = cpus_held(alloc, cluster)?;
    let nodes = cluster.nodes.records();
    let mut groups = Vec::with_capacity(alloc, nodes.len())?;
    for (place, node) in nodes.iter().enumerate() {
        groups.push(group_of(node, held[place]))?;
    }
    Ok(groups)
}

// Whether the node at the place stands so.
fn is_group(groups: &[NodeGroup], place: u32, group: NodeGroup) -> bool
    ensures { result ≡ Standing.is_group group (slice_get groups.now place) }
{
    match groups.get(place as usize) {
        Some(other) => *other == group,
        None => false,
    }
}

// The name of the node at the place, where it stands so.
#[tactic(auto, unfolding(crate::specs::Standing::names_standing))]
fn name_standing<'a>(
    cluster: &'a Cluster,
    groups: &[NodeGroup],
    place: u32,
    group: NodeGroup,
) -> Option<&'a Name>
    requires { GroupsNodes (state_of cluster.now) groups.now }
    ensures { option_to_list (option_copied result)
        ≡ Standing.names_standing (state_of cluster.now) group (place ∷ []) }
{
    if is_group(groups, place, group) {
        cluster.nodes.at(place).map(|node| &node.conf.name)
    } else {
        None
    }
}

// The names of those of the nodes that stand so.
fn names_standing(
    alloc: Global,
    cluster: &Cluster,
    groups: &[NodeGroup],
    group: NodeGroup,
    places: &[u32],
) -> Result<Vec<Name>, Memory>
    requires { GroupsNodes (state_of cluster.now) groups.now }
    ensures { IfOk result (λ names. names.items ≡ Standing.names_standing (state_of cluster.now) group places.now) }
{
    let mut names = Vec::new(alloc);
    for place in places {
        if let Some(name) = name_standing(cluster, groups, *place, group) {
            names.push(name.copy()?)?;
        }
    }
    Ok(names)
}

// The row of the partition's nodes that stand so, if there are any.
fn row_by(
    alloc: Global,
    cluster: &Cluster,
    groups: &[NodeGroup],
    partition: &PartRecord,
    group: NodeGroup,
) -> Result<Option<Row>, Memory>
    requires { GroupsNodes (state_of cluster.now) groups.now }
    ensures { IfOk result (λ row. row ≡ Standing.row_by partition.now group
        (Standing.names_standing (state_of cluster.now) group partition.now.nodes)) }
{
    let names = names_standing(alloc, cluster, groups, group, partition.nodes.as_slice())?;
    if names.is_empty() {
        return Ok(None);
    }
    Ok(Some(Row::States(StateRow {
        partition: partition.conf.name.copy()?,
        is_default: partition.conf.is_default,
        state: partition.state,
        limit: partition.conf.max_time,
        group,
        nodes: Items::from_vec(names),
    })))
}

// Adds the rows of a partition.
fn add_rows(
    alloc: Global,
    cluster: &Cluster,
    groups: &[NodeGroup],
    partition: &PartRecord,
    rows: &mut Vec<Row>,
) -> Result<(), Memory>
    requires { GroupsNodes (state_of cluster.now) groups.now }
    ensures { OnOk result (rows.new.items
        ≡ rows.old.items ++ Standing.rows_of_partition (state_of cluster.now) partition.now) }
{
    for group in GROUPS {
        if let Some(row) = row_by(alloc, cluster, groups, partition, group)? {
            rows.push(row)?;
        }
    }
    Ok(())
}

/// Whether the partition is the one that is asked for, if one is.
pub(crate) fn is_asked(asked: &Option<Name>, partition: &PartRecord) -> bool
    ensures { result ≡ Standing.is_asked asked.now partition.now }
{
    match asked {
        Some(name) => partition.conf.name.is(name),
        None => true,
    }
}

/// The rows of the partitions that are asked for. Linear in the nodes and the jobs' parts, and in the nodes of the
/// partitions that are shown, six times.
#[tactic(auto, unfolding(crate::specs::Standing::state_rows))]
pub(crate) fn state_rows(
    alloc: Global,
    cluster: &Cluster,
    asked: &Option<Name>,
) -> Result<Vec<Row>, Memory>
    requires { IsSound (state_of cluster.now) }
    ensures { IfOk result (λ rows. rows.items ≡ Standing.state_rows (state_of cluster.now) asked.now) }
{
    let groups = groups_of(alloc, cluster)?;
    let mut rows = Vec::new(alloc);
    for partition in cluster.partitions.records() {
        if is_asked(asked, partition) {
            add_rows(alloc, cluster, &groups, partition, &mut rows)?;
        }
    }
    Ok(rows)
}
