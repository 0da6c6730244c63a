//! What operators say of nodes: why it is refused, and what it does.

ghost use Rattle.std.specs.Prelude.{◌≡◌, is_none};
ghost use Rattle.std.specs.List.{list_any};
ghost use Rattle.node_state.specs.Nodes.{place_named};
ghost use Rattle.ctl_state.specs.Index.{IsIndexed};
ghost use Rattle.ctl_state.specs.Refusals.{first_refusal};
ghost use Rattle.ctl_state.specs.Soundness.{IsSound};
ghost use Rattle.ctl_state.specs.State.{state_of};
ghost use Rattle.ctl_nodes.specs.Failing.{lost_after};
ghost use Rattle.ctl_nodes.specs.Updating;
ghost use Rattle.ctl_nodes.specs.Updating.{lost_by, update_after, update_refusals};

use crate::failing::lose;
use crate::names::{change_named, places_of};
use ctl_state::cluster::Cluster;
use job_table::laws::who_leaves_is_charged;
use node_state::record::{DownBy, NodeChange, NodeRecord};
use plain_data::items::Items;
use reply_data::refusal::Refusal;
use request_data::request::NodeOrder;
use small_texts::name::Name;

fn change_by(state: NodeOrder) -> NodeChange
    ensures { result ≡ Updating.change_by state }
{
    match state {
        NodeOrder::Down => NodeChange::Down,
        NodeOrder::Drain => NodeChange::Drain,
        NodeOrder::Resume => NodeChange::Resume,
    }
}

// Whether an order loses the nodes that it names.
fn is_lost_by(state: NodeOrder) -> bool
    ensures { result ≡ Updating.is_lost_by state }
{
    matches!(state, NodeOrder::Down)
}

// Whether the order makes another one of the node.
fn alters(state: NodeOrder, node: &NodeRecord) -> bool
    ensures { result ≡ Updating.alters state node.now }
{
    match state {
        NodeOrder::Down => node.down != DownBy::Set,
        NodeOrder::Drain => !node.drain,
        NodeOrder::Resume => node.down == DownBy::Set || node.drain,
    }
}

// Whether one of the names is no node's.
fn has_stranger(cluster: &Cluster, names: &Items<Name>) -> bool
    ensures { result ≡ list_any (λ name. is_none (place_named name cluster.now.nodes.records)) names.now }
{
    names.iter().any(|name| cluster.nodes.find(name).is_none())
}

/// Why an order to the nodes with these names is refused, if it is. Linear in the names; it takes no memory.
pub fn refusal_of(cluster: &Cluster, user: &Name, nodes: &Items<Name>) -> Option<Refusal>
    ensures { result ≡ first_refusal (update_refusals (state_of cluster.now) user.now nodes.now) }
{
    if !cluster.is_privileged(user) {
        return Some(Refusal::AccessDenied);
    }
    if has_stranger(cluster, nodes) {
        return Some(Refusal::UnknownNode);
    }
    None
}

/// Whether an order to the nodes with these names changes anything. Linear in the names and in the nodes; it takes no
/// memory.
pub fn changes_any(cluster: &Cluster, nodes: &Items<Name>, state: NodeOrder) -> bool
    requires { IsSound (state_of cluster.now) }
    ensures { result ≡ Updating.changes_any (state_of cluster.now) nodes.now state }
{
    let named = places_of(&cluster.nodes, nodes.as_slice());
    for (place, node) in cluster.nodes.records().iter().enumerate() {
        if named.contains(place as u32) && alters(state, node) {
            return true;
        }
    }
    false
}

// Loses the nodes with these names, where the order sets them down.
fn lose_named(cluster: &mut Cluster, moment: u64, names: &[Name], state: NodeOrder)
    requires sound { IsSound (state_of cluster.old) }
    requires indexed { IsIndexed cluster.old }
    ensures after { state_of cluster.new
        ≡ lost_after (state_of cluster.old) moment (lost_by cluster.old.nodes.records names.now state) }
    ensures indexed { IsIndexed cluster.new }
{
    who_leaves_is_charged();
    if is_lost_by(state) {
        let lost = places_of(&cluster.nodes, names);
        lose(cluster, moment, &lost);
    }
}

/// Does what an operator says of the nodes with these names: they are set down and what they run fails, or nothing
/// starts there any more, or both are taken back. The index goes on showing what is held. Linear in the names and in the
/// nodes, and where they are set down with one walk over the jobs; it takes no memory. "update" in scontrol(1).
pub fn update(cluster: &mut Cluster, moment: u64, nodes: &Items<Name>, state: NodeOrder)
    requires sound { IsSound (state_of cluster.old) }
    requires indexed { IsIndexed cluster.old }
    ensures after { state_of cluster.new ≡ update_after (state_of cluster.old) moment nodes.now state }
    ensures indexed { IsIndexed cluster.new }
{
    lose_named(cluster, moment, nodes.as_slice(), state);
    change_named(&mut cluster.nodes, nodes.as_slice(), change_by(state));
}
