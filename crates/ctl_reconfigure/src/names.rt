//! The names of nodes and partitions, and where they stand.

ghost use Rattle.std.specs.Prelude.{◌≡◌, ◌++◌, map, bytes_eq, is_none, position, unwrap_or, IfOk, IfSome, OnOk};
ghost use Rattle.std.specs.HashMap.{get};
ghost use Rattle.ctl_reconfigure.specs.Names as spec;

use node_state::names::first_places;
use node_state::partition_record::PartRecord;
use node_state::record::NodeRecord;
use plain_data::conf::{NodeConf, PartConf};
use small_texts::memory_error::Memory;
use small_texts::name::Name;
use std::alloc::Global;
use std::collections::HashMap;

/// The names of the nodes.
pub(crate) fn node_names(alloc: Global, nodes: &[NodeRecord]) -> Result<Vec<Name>, Memory>
    ensures { IfOk result (λ names. names.items ≡ spec.node_names nodes.now) }
{
    let mut names = Vec::with_capacity(alloc, nodes.len())?;
    for node in nodes {
        names.push(node.conf.name.copy()?)?;
    }
    Ok(names)
}

/// The names of the nodes' lines.
pub(crate) fn conf_names(alloc: Global, confs: &[NodeConf]) -> Result<Vec<Name>, Memory>
    ensures { IfOk result (λ names. names.items ≡ spec.conf_names confs.now) }
{
    let mut names = Vec::with_capacity(alloc, confs.len())?;
    for conf in confs {
        names.push(conf.name.copy()?)?;
    }
    Ok(names)
}

/// The names of the partitions.
pub(crate) fn partition_names(alloc: Global, partitions: &[PartRecord]) -> Result<Vec<Name>, Memory>
    ensures { IfOk result (λ names. names.items ≡ spec.partition_names partitions.now) }
{
    let mut names = Vec::with_capacity(alloc, partitions.len())?;
    for partition in partitions {
        names.push(partition.conf.name.copy()?)?;
    }
    Ok(names)
}

/// The names of the partitions' lines.
pub(crate) fn line_names(alloc: Global, confs: &[PartConf]) -> Result<Vec<Name>, Memory>
    ensures { IfOk result (λ names. names.items ≡ spec.line_names confs.now) }
{
    let mut names = Vec::with_capacity(alloc, confs.len())?;
    for conf in confs {
        names.push(conf.name.copy()?)?;
    }
    Ok(names)
}

/// Adds copies of these names.
pub(crate) fn push_all(names: &mut Vec<Name>, more: &[Name]) -> Result<(), Memory>
    ensures { OnOk result (names.new.items ≡ names.old.items ++ more.now) }
{
    for name in more {
        names.push(name.copy()?)?;
    }
    Ok(())
}

/// Whether the names are the same in the same order.
pub(crate) fn same_names(one: &[Name], other: &[Name]) -> bool
    ensures { result ≡ spec.same_names one.now other.now }
{
    one == other
}

// The place of the name by the places of all names; the first one where it is none of them.
fn place_of(places: &HashMap<Name, usize>, name: &Name) -> Result<u32, Memory>
    ensures { IfOk result (λ place. place ≡ unwrap_or (get bytes_eq places.now name.now) 0) }
{
    match places.get(name) {
        Some(place) => u32::try_from(*place).map_err(|_| Memory),
        None => Ok(0),
    }
}

/// For each of the names before, its place now. Linear in both.
pub(crate) fn places_of(alloc: Global, before: &[Name], now: &[Name]) -> Result<Vec<u32>, Memory>
    ensures { IfOk result (λ places. places.items ≡ spec.places_of before.now now.now) }
{
    let index = first_places(alloc, now)?;
    let mut places = Vec::with_capacity(alloc, before.len())?;
    for name in before {
        places.push(place_of(&index, name)?)?;
    }
    Ok(places)
}

/// The same, and None where all names stand as they stood.
pub(crate) fn places_moved(
    alloc: Global,
    before: &[Name],
    now: &[Name],
) -> Result<Option<Vec<u32>>, Memory>
    ensures stay { IfOk result (λ places. is_none places ≡ spec.same_names before.now now.now) }
    ensures moved { IfOk result (λ places. IfSome places (λ all. all.items ≡ spec.places_of before.now now.now)) }
{
    if same_names(before, now) {
        return Ok(None);
    }
    Ok(Some(places_of(alloc, before, now)?))
}

// Where the name stood by the places of all names, if it was one of them.
fn origin_of(places: &HashMap<Name, usize>, name: &Name) -> Result<Option<u32>, Memory>
    ensures { IfOk result (λ origin. origin ≡ get bytes_eq places.now name.now) }
{
    match places.get(name) {
        Some(place) => Ok(Some(u32::try_from(*place).map_err(|_| Memory)?)),
        None => Ok(None),
    }
}

/// For each of the names now, its place before, if it had one. Linear in both.
pub(crate) fn origins_of(
    alloc: Global,
    before: &[Name],
    now: &[Name],
) -> Result<Vec<Option<u32>>, Memory>
    ensures { IfOk result (λ origins. origins.items ≡ map (λ name. position (bytes_eq name) before.now) now.now) }
{
    let index = first_places(alloc, before)?;
    let mut origins = Vec::with_capacity(alloc, now.len())?;
    for name in now {
        origins.push(origin_of(&index, name)?)?;
    }
    Ok(origins)
}
