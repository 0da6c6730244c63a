//! The nodes, as they stand by what is saved of them.

ghost use Rattle.std.specs.Prelude.{◌≡◌, ◌<◌, All, bytes_eq, find, length, map, option_copied, slice_get, Some};
ghost use Rattle.std.specs.List.{HoldsAt};
ghost use Rattle.job_table.specs.Walks.{map_at};
ghost use Rattle.node_state.specs.declared.record.NodeRecord.{NodeRecord as OneRecord};
ghost use Rattle.node_state.specs.Nodes.{changed};
ghost use Rattle.saved_data.specs.declared.parts.SavedNode.{SavedNode as OneNode};
ghost use Rattle.ctl_restore.specs.Fits.{IsEmptyOnce};
ghost use Rattle.ctl_restore.specs.Restored.{restored_node, standing_as};
ghost use Rattle.ctl_restore.specs.Steps.{IsUnheard, LeadsToLines, down_as, drained_as, heard_as};

use crate::accounts::place_of;
use job_table::laws::{a_change_is_of_its_place, a_walk_changes_all};
use node_state::nodes::Nodes;
use node_state::record::{DownBy, NodeChange, NodeRecord};
use request_data::report::Heard;
use saved_data::parts::SavedNode;
use small_texts::name::Name;
use std::collections::HashMap;

// Changes the node at a place.
fn change(nodes: &mut Nodes, place: u32, change: NodeChange)
    requires { place < length nodes.old.records }
    ensures records { nodes.new.records ≡ map_at place (changed change) nodes.old.records }
    ensures held { nodes.new.held ≡ nodes.old.held }
{
    nodes.set_state(place, change);
}

// Notes a report of the node at a place, if there is one.
fn hear(nodes: &mut Nodes, place: u32, heard: Option<Heard>, empty: bool)
    requires { place < length nodes.old.records }
    ensures records { nodes.new.records ≡ map_at place (heard_as heard empty) nodes.old.records }
    ensures held { nodes.new.held ≡ nodes.old.held }
{
    a_change_is_of_its_place::<NodeRecord>();
    if let Some(heard) = heard {
        change(nodes, place, NodeChange::Heard { heard, empty });
    }
}

// Sets the node at a place, which is up, down as its line says.
fn set_down(nodes: &mut Nodes, place: u32, line: &SavedNode)
    requires { place < length nodes.old.records }
    ensures records { nodes.new.records ≡ map_at place (down_as line.now line.now.down) nodes.old.records }
    ensures held { nodes.new.held ≡ nodes.old.held }
{
    a_change_is_of_its_place::<NodeRecord>();
    match line.down {
        DownBy::No => {}
        DownBy::Silent => change(nodes, place, NodeChange::Silent),
        DownBy::Set => {
            change(nodes, place, NodeChange::Down);
            hear(
                nodes,
                place,
                if line.empty { line.heard } else { None },
                true,
            );
        }
    }
}

// Drains the node at a place, where it is to be.
fn drain(nodes: &mut Nodes, place: u32, drain: bool)
    requires { place < length nodes.old.records }
    ensures records { nodes.new.records ≡ map_at place (drained_as drain) nodes.old.records }
    ensures held { nodes.new.held ≡ nodes.old.held }
{
    a_change_is_of_its_place::<NodeRecord>();
    if drain {
        change(nodes, place, NodeChange::Drain);
    }
}

// Puts the node at a place, of which nothing was heard yet, as its line says.
fn stand(nodes: &mut Nodes, place: u32, line: &SavedNode)
    requires there { place < length nodes.old.records }
    requires unheard { HoldsAt IsUnheard nodes.old.records place }
    requires empty { IsEmptyOnce line.now }
    ensures records { nodes.new.records
        ≡ map_at place (λ (node : OneRecord). standing_as node (Some line.now)) nodes.old.records }
    ensures held { nodes.new.held ≡ nodes.old.held }
{
    a_change_is_of_its_place::<NodeRecord>();
    change(nodes, place, NodeChange::Resume);
    hear(nodes, place, line.heard, false);
    set_down(nodes, place, line);
    drain(nodes, place, line.drain);
}

fn line_at(lines: &[SavedNode], place: usize) -> Option<&SavedNode>
    ensures { option_copied result ≡ slice_get lines.now place }
{
    lines.get(place)
}

// The line of a node, if there is one.
fn line_of<'a>(
    lines: &'a [SavedNode],
    places: &HashMap<Name, usize>,
    name: &Name,
) -> Option<&'a SavedNode>
    requires { LeadsToLines lines.now places.now }
    ensures { option_copied result ≡ find (λ (line : OneNode). bytes_eq line.name name.now) lines.now }
{
    let place = place_of(places, name)?;
    line_at(lines, place)
}

// Puts the node at a place, of which nothing was heard yet, as its line says, if it has one.
fn stand_at(nodes: &mut Nodes, lines: &[SavedNode], places: &HashMap<Name, usize>, place: u32)
    requires there { place < length nodes.old.records }
    requires unheard { HoldsAt IsUnheard nodes.old.records place }
    requires empty { All IsEmptyOnce lines.now }
    requires places { LeadsToLines lines.now places.now }
    ensures records { nodes.new.records ≡ map_at place (restored_node lines.now) nodes.old.records }
    ensures held { nodes.new.held ≡ nodes.old.held }
{
    a_change_is_of_its_place::<NodeRecord>();
    let node = &nodes.records()[place as usize];
    if let Some(line) = line_of(lines, places, &node.conf.name) {
        stand(nodes, place, line);
    }
}

/// Puts the nodes, of which nothing was heard yet, as their lines say. Linear in the nodes; it takes no memory.
pub fn restore_nodes(nodes: &mut Nodes, lines: &[SavedNode], places: &HashMap<Name, usize>)
    requires unheard { All IsUnheard nodes.old.records }
    requires empty { All IsEmptyOnce lines.now }
    requires places { LeadsToLines lines.now places.now }
    ensures records { nodes.new.records ≡ map (restored_node lines.now) nodes.old.records }
    ensures held { nodes.new.held ≡ nodes.old.held }
{
    a_walk_changes_all::<NodeRecord>();
    for place in 0..nodes.len() {
        stand_at(nodes, lines, places, place);
    }
}
