//! The rows of nodes.

ghost use Rattle.std.specs.Prelude.{◌≡◌, ℕ, IfOk};
ghost use Rattle.ctl_state.specs.Holding as holding;
ghost use Rattle.ctl_state.specs.State.{State, state_of};
ghost use Rattle.ctl_state.specs.Soundness.{IsSound};
ghost use Rattle.ctl_show.specs.Records;
ghost use Rattle.ctl_show.specs.Standing;

use crate::held::{cpus_held, mem_held};
use crate::standing::group_of;
use ctl_state::cluster::Cluster;
use node_state::record::NodeRecord;
use reply_data::view::{NodeRow, Row};
use small_texts::memory_error::Memory;
use small_texts::name::Name;
use std::alloc::Global;

// What is shown of the node, of which so many processors and megabytes are held.
#[tactic(auto, unfolding(crate::specs::Records::node_row))]
fn node_row(node: &NodeRecord, held: u64, held_mem: u64) -> Result<NodeRow, Memory>
    ensures { (s : State) (place : ℕ)
        → held ≡ Standing.cpus_held (holding.parts_of s.jobs) place
        → held_mem ≡ holding.mem_held (holding.parts_of s.jobs) place
        → IfOk result (λ row. row ≡ Records.node_row s place node.now) }
{
    Ok(NodeRow {
        name: node.conf.name.copy()?,
        held,
        cpus: node.conf.cpus.get(),
        mem: node.conf.mem.get(),
        held_mem,
        group: group_of(node, held),
        weight: node.conf.weight.get(),
        features: node.conf.features.copy()?,
        heard: node.heard,
    })
}

// Whether the node is the one that is asked for, if one is.
fn is_asked_for(asked: &Option<Name>, node: &NodeRecord) -> bool
    ensures { result ≡ Records.is_asked_for asked.now node.now }
{
    match asked {
        Some(name) => node.conf.name.is(name),
        None => true,
    }
}

/// The rows of the nodes that are asked for. Linear in the nodes and the jobs' parts.
pub(crate) fn node_rows(
    alloc: Global,
    cluster: &Cluster,
    asked: &Option<Name>,
) -> Result<Vec<Row>, Memory>
    requires { IsSound (state_of cluster.now) }
    ensures { IfOk result (λ rows. rows.items ≡ Records.node_rows (state_of cluster.now) asked.now) }
{
    let cpus = cpus_held(alloc, cluster)?;
    let mem = mem_held(alloc, cluster)?;
    let nodes = cluster.nodes.records();
    let mut rows = Vec::new(alloc);
    for (place, node) in nodes.iter().enumerate() {
        if is_asked_for(asked, node) {
            let row = node_row(node, cpus[place], mem[place])?;
            rows.push(Row::Node(row))?;
        }
    }
    Ok(rows)
}
