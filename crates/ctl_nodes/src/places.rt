//! The places of the nodes that a reservation names.

ghost use Rattle.std.specs.Prelude.{◌≡◌};
ghost use Rattle.ctl_nodes.specs.Reserving;

use crate::places_of;
use node_state::nodes::Nodes;
use plain_data::NodePlaces;
use small_texts::name::Name;

/// The places of the nodes with these names. Linear in the names; it takes no memory.
pub(crate) fn places_among(nodes: &Nodes, names: &[Name]) -> NodePlaces
    ensures { result ≡ Reserving.places_among nodes.now.records names.now }
{
    let _records = nodes.records();
    let places = places_of(nodes, names);
    places.tell_rising();
    places
}
