//! The nodes of another slurm.conf, matched by their names with those that there are.

ghost use Rattle.std.specs.Prelude.{◌≡◌, ℕ, List, map, bytes_eq, position, IfOk, option_copied};
ghost use Rattle.std.specs.HashMap.{get};
ghost use Rattle.node_state.specs.Renewing as spec;

use crate::names::first_places;
use crate::nodes::Nodes;
use crate::record::{DownBy, DroppedNode, Held, NodeRecord};
use crate::standing::opened;
use plain_data::CpuIds;
use plain_data::conf::NodeConf;
use request_data::report::Heard;
use small_texts::memory_error::Memory;
use small_texts::name::Name;
use std::alloc::Global;
use std::collections::HashMap;

fn staying(conf: NodeConf, node: &NodeRecord) -> NodeRecord
    ensures { result ≡ spec.staying conf node.now }
{
    NodeRecord {
        conf,
        down: node.down,
        drain: node.drain,
        empty: node.empty,
        heard: node.heard,
    }
}

fn returned(moment: u64, conf: NodeConf, dropped: &DroppedNode) -> NodeRecord
    ensures { result ≡ spec.returned moment conf dropped.now }
{
    NodeRecord {
        conf,
        down: DownBy::Silent,
        drain: false,
        empty: false,
        heard: Some(Heard {
            boot: dropped.boot,
            number: dropped.number,
            moment,
        }),
    }
}

fn come(moment: u64, conf: NodeConf, dropped: Option<&DroppedNode>) -> NodeRecord
    ensures { result ≡ spec.come moment conf (option_copied dropped.entry) }
{
    match dropped {
        Some(dropped) => returned(moment, conf, dropped),
        None => opened(conf),
    }
}

fn node_named<'a>(nodes: &'a Nodes, name: &Name) -> Option<&'a NodeRecord>
    ensures { option_copied result ≡ spec.node_named name.now nodes.now.records }
{
    let place = nodes.find(name)?;
    nodes.at(place)
}

fn names_of(alloc: Global, dropped: &[DroppedNode]) -> Result<Vec<Name>, Memory>
    ensures { IfOk result (λ names. names.items ≡ spec.dropped_names dropped.now) }
{
    let mut names = Vec::with_capacity(alloc, dropped.len())?;
    for node in dropped {
        names.push(node.name.copy()?)?;
    }
    Ok(names)
}

// The dropped node of this name, by their places.
fn dropped_named<'a>(
    dropped: &'a [DroppedNode],
    places: &HashMap<Name, usize>,
    name: &Name,
) -> Option<&'a DroppedNode>
    requires { (name : List ℕ) → get bytes_eq places.now name
        ≡ position (bytes_eq name) (spec.dropped_names dropped.now) }
    ensures { option_copied result ≡ spec.dropped_named name.now dropped.now }
{
    let place = places.get(name)?;
    dropped.get(*place)
}

// The node of a new line.
fn renewed(
    nodes: &Nodes,
    dropped: &[DroppedNode],
    places: &HashMap<Name, usize>,
    moment: u64,
    conf: NodeConf,
) -> NodeRecord
    requires { (name : List ℕ) → get bytes_eq places.now name
        ≡ position (bytes_eq name) (spec.dropped_names dropped.now) }
    ensures { result ≡ spec.renewed nodes.now.records dropped.now moment conf }
{
    match node_named(nodes, &conf.name) {
        Some(node) => staying(conf, node),
        None => {
            let dropped = dropped_named(dropped, places, &conf.name);
            come(moment, conf, dropped)
        }
    }
}

/// The nodes of these new lines, as they stand once these hold. Linear in them and in the dropped nodes.
pub(crate) fn records_for(
    alloc: Global,
    nodes: &Nodes,
    dropped: &[DroppedNode],
    moment: u64,
    confs: Vec<NodeConf>,
) -> Result<Vec<NodeRecord>, Memory>
    ensures { IfOk result (λ records. records.items
        ≡ map (spec.renewed nodes.now.records dropped.now moment) confs.items) }
{
    let names = names_of(alloc, dropped)?;
    let places = first_places(alloc, &names)?;
    let mut records = Vec::with_capacity(alloc, confs.len())?;
    for conf in confs {
        records.push(renewed(nodes, dropped, &places, moment, conf))?;
    }
    Ok(records)
}

// What is held of the node with this name; nothing where there is none.
fn held_named(nodes: &Nodes, name: &Name) -> Held
    ensures { result ≡ spec.held_by_name nodes.now name.now }
{
    match nodes.find(name) {
        Some(place) => nodes.held(place).copy(),
        None => Held {
            cpus: CpuIds::none(),
            mem: 0,
        },
    }
}

/// What is held of the nodes of these new lines. Linear in them.
pub(crate) fn held_for(
    alloc: Global,
    nodes: &Nodes,
    confs: &[NodeConf],
) -> Result<Vec<Held>, Memory>
    ensures { IfOk result (λ held. held.items
        ≡ map (λ conf. spec.held_by_name nodes.now conf.name) confs.now) }
{
    let mut held = Vec::with_capacity(alloc, confs.len())?;
    for conf in confs {
        held.push(held_named(nodes, &conf.name))?;
    }
    Ok(held)
}
