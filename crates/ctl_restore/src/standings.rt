//! How the nodes stand of which something is said, and those that were dropped.

ghost use Rattle.std.specs.Prelude.{◌≡◌, ◌≢◌, ◌≤◌, ◌↔◌, IsTrue, IsSome, IfSome, IfOk, All, AllPairs, filter};
ghost use Rattle.saved_data.specs.declared.parts.SavedNode.{SavedNode as OneNode};
ghost use Rattle.ctl_restore.specs.Fits.{IsEmptyOnce, IsStanding};
ghost use Rattle.ctl_restore.specs.Restored.{came_back, is_gone, standings};
ghost use Rattle.ctl_restore.specs.Steps.{LeadsToLines};

use crate::accounts::place_of;
use node_state::nodes::Nodes;
use node_state::record::{DownBy, DroppedNode};
use request_data::report::Heard;
use saved_data::parts::SavedNode;
use saved_data::saved::Saved;
use small_texts::memory_error::Memory;
use small_texts::name::Name;
use std::alloc::Global;
use std::collections::HashMap;

fn copied(line: &SavedNode) -> Result<SavedNode, Memory>
    ensures { IfOk result (λ copy. copy ≡ line.now) }
{
    Ok(SavedNode {
        name: line.name.copy()?,
        down: line.down,
        drain: line.drain,
        empty: line.empty,
        heard: line.heard,
    })
}

fn came_back(moment: u64, dropped: &DroppedNode) -> Result<SavedNode, Memory>
    ensures { IfOk result (λ line. line ≡ came_back moment dropped.now) }
{
    Ok(SavedNode {
        name: dropped.name.copy()?,
        down: DownBy::Silent,
        drain: false,
        empty: false,
        heard: Some(Heard {
            boot: dropped.boot,
            number: dropped.number,
            moment,
        }),
    })
}

fn copy_all(alloc: Global, lines: &[SavedNode]) -> Result<Vec<SavedNode>, Memory>
    ensures { IfOk result (λ copies. copies.items ≡ lines.now) }
{
    let mut copies = Vec::with_capacity(alloc, lines.len())?;
    for line in lines {
        copies.push(copied(line)?)?;
    }
    Ok(copies)
}

/// How the nodes stand of which something is said, and behind them those that were dropped, should they come back.
/// Linear in both.
pub fn find_standings(alloc: Global, saved: &Saved) -> Result<Vec<SavedNode>, Memory>
    ensures { IfOk result (λ lines. lines.items ≡ standings saved.now) }
{
    let mut lines = copy_all(alloc, saved.nodes.as_slice())?;
    for node in saved.dropped.as_slice() {
        lines.push(came_back(saved.moment, node)?)?;
    }
    Ok(lines)
}

/// The places of the lines by the names of their nodes: None where one name stands twice. Linear in the lines.
pub fn places_by_name(
    alloc: Global,
    lines: &[SavedNode],
) -> Result<Option<HashMap<Name, usize>>, Memory>
    ensures once { IfOk result (λ found. IsSome found
        ↔ AllPairs (λ (one other : OneNode). one.name ≢ other.name) lines.now) }
    ensures places { IfOk result (λ found. IfSome found (LeadsToLines lines.now)) }
{
    let mut places = HashMap::with_capacity(alloc, lines.len())?;
    for (place, line) in lines.iter().enumerate() {
        if let Some(_place) = place_of(&places, &line.name) {
            return Ok(None);
        }
        places.insert(line.name.copy()?, place)?;
    }
    Ok(Some(places))
}

// Whether the node was set down and heard, where it says that it is empty since.
fn is_empty_once(line: &SavedNode) -> bool
    ensures { IsTrue result ↔ IsEmptyOnce line.now }
{
    !line.empty || (line.down == DownBy::Set && line.heard.is_some())
}

fn is_standing(moment: u64, line: &SavedNode) -> bool
    ensures { IsTrue result ↔ IsStanding moment line.now }
{
    is_empty_once(line) && line.heard.is_none_or(|heard| heard.moment <= moment)
}

/// Whether each line says what can be true of a node at the moment. Linear in the lines.
pub fn are_standing(moment: u64, lines: &[SavedNode]) -> bool
    ensures { IsTrue result ↔ All (IsStanding moment) lines.now }
{
    lines.iter().all(|line| is_standing(moment, line))
}

// An equal node.
fn copied_dropped(dropped: &DroppedNode) -> Result<DroppedNode, Memory>
    ensures { IfOk result (λ copy. copy ≡ dropped.now) }
{
    Ok(DroppedNode {
        name: dropped.name.copy()?,
        boot: dropped.boot,
        number: dropped.number,
    })
}

/// The dropped nodes that the configuration doesn't name, which are dropped still. Linear in them.
pub fn still_dropped(
    alloc: Global,
    nodes: &Nodes,
    dropped: &[DroppedNode],
) -> Result<Vec<DroppedNode>, Memory>
    ensures { IfOk result (λ still. still.items ≡ filter (is_gone nodes.now.records) dropped.now) }
{
    let mut still = Vec::with_capacity(alloc, dropped.len())?;
    for node in dropped {
        if nodes.find(&node.name).is_none() {
            still.push(copied_dropped(node)?)?;
        }
    }
    Ok(still)
}
