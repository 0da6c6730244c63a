//! The nodes that have some names.

ghost use Rattle.std.specs.Prelude.{◌≡◌, ℕ, Bool, map};
ghost use Rattle.plain_data.specs.Rows.{has_id};
ghost use Rattle.node_state.specs.declared.record.NodeRecord.{NodeRecord as OneNode};
ghost use Rattle.node_state.specs.Nodes.{AreNamedOnce};
ghost use Rattle.ctl_state.specs.Planning.{is_at};
ghost use Rattle.ctl_nodes.specs.Changing.{changed_where};
ghost use Rattle.ctl_nodes.specs.Updating.{changed_if, is_among};

use job_table::laws::{a_change_is_of_its_place, a_walk_changes_all};
use node_state::laws::names_lead_to_places;
use node_state::nodes::Nodes;
use node_state::record::{NodeChange, NodeRecord};
use plain_data::NodePlaces;
use small_texts::name::Name;

/// The places of the nodes with these names. Linear in the names; it takes no memory.
pub fn places_of(nodes: &Nodes, names: &[Name]) -> NodePlaces
    requires { AreNamedOnce nodes.now.records }
    ensures { (place : ℕ) → has_id result place ≡ is_at (is_among names.now) nodes.now.records place }
{
    names_lead_to_places();
    let mut places = NodePlaces::none();
    for name in names {
        if let Some(place) = nodes.find(name) {
            places.insert(place);
        }
    }
    places
}

/// Changes the nodes at these places: so all of which something holds, where it holds of those at these places and of no
/// others. Linear in the nodes; it takes no memory.
pub fn change_places(nodes: &mut Nodes, places: &NodePlaces, change: NodeChange)
    ensures records { (test : OneNode → Bool)
        → ((place : ℕ) → has_id places.now place ≡ is_at test nodes.old.records place)
        → nodes.new.records ≡ map (changed_where change test) nodes.old.records }
    ensures held { nodes.new.held ≡ nodes.old.held }
{
    a_walk_changes_all::<NodeRecord>();
    a_change_is_of_its_place::<NodeRecord>();
    for place in 0..nodes.len() {
        if places.contains(place) {
            nodes.set_state(place, change);
        }
    }
}

/// Changes the nodes with these names. Linear in the names and in the nodes; it takes no memory.
pub(crate) fn change_named(nodes: &mut Nodes, names: &[Name], change: NodeChange)
    requires { AreNamedOnce nodes.old.records }
    ensures records { nodes.new.records ≡ map (changed_if change names.now) nodes.old.records }
    ensures held { nodes.new.held ≡ nodes.old.held }
{
    let named = places_of(nodes, names);
    change_places(nodes, &named, change);
}
