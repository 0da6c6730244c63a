//! What is saved of the last plan.

ghost use Rattle.std.specs.Prelude.{◌≡◌, IfOk, map, slice_get};
ghost use Rattle.ctl_saved.specs.Saving as spec;

use crate::nodes::name_at;
use backfill_planner::{Placed, Share};
use node_state::record::NodeRecord;
use plain_data::items::Items;
use saved_data::parts::{SavedPlaced, SavedShare};
use small_texts::memory_error::Memory;
use small_texts::name::Name;
use std::alloc::Global;

// The name of a node that is no longer there, by its place behind the nodes.
fn gone_name(gone: &[Name], place: usize) -> Result<Option<Name>, Memory>
    ensures { IfOk result (λ name. name ≡ slice_get gone.now place) }
{
    match gone.get(place) {
        Some(name) => Ok(Some(name.copy()?)),
        None => Ok(None),
    }
}

// The name of the node at a place of the plan.
fn planned_name(nodes: &[NodeRecord], gone: &[Name], place: u32) -> Result<Option<Name>, Memory>
    ensures { IfOk result (λ name. name ≡ spec.planned_name nodes.now gone.now place) }
{
    if (place as usize) < nodes.len() {
        return name_at(nodes, place);
    }
    gone_name(gone, place as usize - nodes.len())
}

fn saved_share(
    nodes: &[NodeRecord],
    gone: &[Name],
    share: &Share,
) -> Result<Option<SavedShare>, Memory>
    ensures { IfOk result (λ saved. saved ≡ spec.saved_share nodes.now gone.now share.now) }
{
    match planned_name(nodes, gone, share.node)? {
        Some(node) => Ok(Some(SavedShare {
            node,
            tasks: share.tasks,
            cpus: share.cpus,
            mem: share.mem,
        })),
        None => Ok(None),
    }
}

fn saved_shares(
    alloc: Global,
    nodes: &[NodeRecord],
    gone: &[Name],
    shares: &[Share],
) -> Result<Vec<SavedShare>, Memory>
    ensures { IfOk result (λ saved. saved.items ≡ spec.saved_shares nodes.now gone.now shares.now) }
{
    let mut saved = Vec::with_capacity(alloc, shares.len())?;
    for share in shares {
        if let Some(one) = saved_share(nodes, gone, share)? {
            saved.push(one)?;
        }
    }
    Ok(saved)
}

fn saved_placed(
    alloc: Global,
    nodes: &[NodeRecord],
    gone: &[Name],
    placed: &Placed,
) -> Result<SavedPlaced, Memory>
    ensures { IfOk result (λ saved. saved ≡ spec.saved_placed nodes.now gone.now placed.now) }
{
    let shares = saved_shares(alloc, nodes, gone, placed.parts.as_slice())?;
    Ok(SavedPlaced {
        id: placed.id,
        start: placed.start,
        shares: Items::from_vec(shares),
    })
}

/// What is saved of the plan, also of nodes that are no longer there. Linear in its shares.
pub fn saved_plan(
    alloc: Global,
    nodes: &[NodeRecord],
    gone: &[Name],
    plan: &[Placed],
) -> Result<Vec<SavedPlaced>, Memory>
    ensures { IfOk result (λ saved. saved.items ≡ map (spec.saved_placed nodes.now gone.now) plan.now) }
{
    let mut saved = Vec::with_capacity(alloc, plan.len())?;
    for placed in plan {
        saved.push(saved_placed(alloc, nodes, gone, placed)?)?;
    }
    Ok(saved)
}
