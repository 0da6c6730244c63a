//! The last plan, by what is saved of it.

ghost use Rattle.std.specs.Prelude.{◌≡◌, ◌≢◌, ◌≤◌, ◌↔◌, IfOk, OnOk, IsTrue, AllPairs, bytes_eq, fold, map, nat_eq, position, unwrap_or};
ghost use Rattle.backfill_planner.specs.declared.Placed.{Placed as OnePlaced};
ghost use Rattle.host_lists.specs.Hosts.{with_name};
ghost use Rattle.job_table.specs.Table.{job_with};
ghost use Rattle.ctl_state.specs.Events.{waits};
ghost use Rattle.ctl_state.specs.Soundness.{PlansPending};
ghost use Rattle.ctl_restore.specs.Restored as spec;
ghost use Rattle.ctl_restore.specs.Steps.{is_planned};
ghost use Rattle.std.specs.HashSet.{contains};
ghost use Rattle.std.specs.List.{list_all};

use backfill_planner::{Placed, Share};
use ctl_state::jobs::is_pending;
use indexmap::IndexSet;
use job_table::jobs::Jobs;
use node_state::nodes::Nodes;
use plain_data::items::Items;
use saved_data::parts::{SavedPlaced, SavedShare};
use small_texts::memory_error::Memory;
use small_texts::name::Name;
use std::alloc::Global;
use std::collections::HashSet;

// Adds the names in these shares that are no node's, each once.
#[tactic(auto, using(crate::proofs::Gone::adding))]
fn add_strangers(
    gone: &mut IndexSet<Name>,
    nodes: &Nodes,
    shares: &[SavedShare],
) -> Result<(), Memory>
    ensures { OnOk result (gone.new.keys ≡ fold with_name gone.old.keys (spec.strangers nodes.now.records shares.now)) }
{
    for share in shares {
        if nodes.find(&share.node).is_none() {
            gone.insert(share.node.copy()?)?;
        }
    }
    Ok(())
}

// The names in the plan that are no node's, each once, in the order in which they come. Linear in its shares; it takes no
// memory where there are none.
#[tactic(auto, using(crate::proofs::Gone::adding), unfolding(crate::specs::Restored::gone_names))]
fn gone_names(alloc: Global, nodes: &Nodes, plan: &[SavedPlaced]) -> Result<IndexSet<Name>, Memory>
    ensures { IfOk result (λ gone. gone.keys ≡ spec.gone_names nodes.now.records plan.now) }
{
    let mut gone = IndexSet::new(alloc);
    for placed in plan {
        add_strangers(&mut gone, nodes, placed.shares.as_slice())?;
    }
    Ok(gone)
}

// The place of a name among those of nodes that are gone; any where it isn't there.
fn gone_place(gone: &IndexSet<Name>, name: &Name) -> usize
    ensures { result ≡ unwrap_or (position (bytes_eq name.now) gone.now.keys) 0 }
{
    gone.get_index_of(name).unwrap_or(0)
}

// The place of the node with this name: behind those of the nodes where it is gone.
fn planned_place(nodes: &Nodes, gone: &IndexSet<Name>, name: &Name) -> Result<u32, Memory>
    ensures { IfOk result (λ place. place ≡ spec.planned_place nodes.now.records gone.now.keys name.now) }
{
    if let Some(place) = nodes.find(name) {
        return Ok(place);
    }
    let place = u32::try_from(gone_place(gone, name)).map_err(|_| Memory)?;
    nodes.len().checked_add(place).ok_or(Memory)
}

fn restored_share(nodes: &Nodes, gone: &IndexSet<Name>, share: &SavedShare) -> Result<Share, Memory>
    ensures { IfOk result (λ restored. restored ≡ spec.restored_share nodes.now.records gone.now.keys share.now) }
{
    Ok(Share {
        node: planned_place(nodes, gone, &share.node)?,
        tasks: share.tasks,
        cpus: share.cpus,
        mem: share.mem,
    })
}

#[tactic(auto, unfolding(crate::specs::Restored::restored_shares))]
fn restored_shares(
    alloc: Global,
    nodes: &Nodes,
    gone: &IndexSet<Name>,
    shares: &[SavedShare],
) -> Result<Vec<Share>, Memory>
    ensures { IfOk result (λ restored. restored.items ≡ spec.restored_shares nodes.now.records gone.now.keys shares.now) }
{
    let mut restored = Vec::with_capacity(alloc, shares.len())?;
    for share in shares {
        restored.push(restored_share(nodes, gone, share)?)?;
    }
    Ok(restored)
}

fn restored_placed(
    alloc: Global,
    nodes: &Nodes,
    gone: &IndexSet<Name>,
    placed: &SavedPlaced,
) -> Result<Placed, Memory>
    ensures { IfOk result (λ restored. restored ≡ spec.restored_placed nodes.now.records gone.now.keys placed.now) }
{
    let shares = restored_shares(alloc, nodes, gone, placed.shares.as_slice())?;
    Ok(Placed {
        id: placed.id,
        start: placed.start,
        parts: Items::from_vec(shares),
    })
}

// The placements, where these names are those of nodes that are gone. Linear in their shares.
fn restored_placements(
    alloc: Global,
    nodes: &Nodes,
    gone: &IndexSet<Name>,
    plan: &[SavedPlaced],
) -> Result<Vec<Placed>, Memory>
    ensures { IfOk result (λ restored. restored.items ≡ map (spec.restored_placed nodes.now.records gone.now.keys) plan.now) }
{
    let mut restored = Vec::with_capacity(alloc, plan.len())?;
    for placed in plan {
        restored.push(restored_placed(alloc, nodes, gone, placed)?)?;
    }
    Ok(restored)
}

/// The plan, and the names in it that are no node's. Linear in its shares.
pub fn restored_plan(
    alloc: Global,
    nodes: &Nodes,
    plan: &[SavedPlaced],
) -> Result<(Vec<Placed>, Vec<Name>), Memory>
    ensures plan { IfOk result (λ found. found.0.items
        ≡ map (spec.restored_placed nodes.now.records (spec.gone_names nodes.now.records plan.now)) plan.now) }
    ensures gone { IfOk result (λ found. found.1.items ≡ spec.gone_names nodes.now.records plan.now) }
{
    let gone = gone_names(alloc, nodes, plan)?;
    let placements = restored_placements(alloc, nodes, &gone, plan)?;
    let names = gone.into_iter().collect(alloc)?;
    Ok((placements, names))
}

// Whether there is a job with this number that waits.
fn waits(jobs: &Jobs, id: u32) -> bool
    ensures { result ≡ waits (job_with id jobs.now.records) }
{
    jobs.get(id).is_some_and(|job| is_pending(job))
}

fn was_seen(seen: &HashSet<u32>, id: u32) -> bool
    ensures { result ≡ contains nat_eq seen.now id }
{
    seen.contains(&id)
}

// Whether the plan names no job twice. Linear in it.
fn names_once(alloc: Global, plan: &[Placed]) -> Result<bool, Memory>
    ensures { IfOk result (λ once. IsTrue once ↔ AllPairs (λ (one other : OnePlaced). one.id ≢ other.id) plan.now) }
{
    let mut seen = HashSet::with_capacity(alloc, plan.len())?;
    for placed in plan {
        if was_seen(&seen, placed.id) {
            return Ok(false);
        }
        seen.insert(placed.id)?;
    }
    Ok(true)
}

#[tactic(auto, unfolding(crate::specs::Steps::is_planned))]
fn is_planned(jobs: &Jobs, placed: &Placed) -> bool
    ensures { result ≡ is_planned jobs.now.records placed.now }
{
    placed.start <= 253_402_300_799 && waits(jobs, placed.id)
}

fn are_planned(jobs: &Jobs, plan: &[Placed]) -> bool
    ensures { result ≡ list_all (is_planned jobs.now.records) plan.now }
{
    plan.iter().all(|placed| is_planned(jobs, placed))
}

/// Whether the plan names waiting jobs alone, each once at most, and seconds that can be printed. Linear in it.
pub fn plans_pending(alloc: Global, jobs: &Jobs, plan: &[Placed]) -> Result<bool, Memory>
    ensures { IfOk result (λ sound. IsTrue sound ↔ PlansPending jobs.now.records plan.now) }
{
    let _records = jobs.records();
    if !are_planned(jobs, plan) {
        return Ok(false);
    }
    names_once(alloc, plan)
}
