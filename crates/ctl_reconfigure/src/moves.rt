//! What moves where the nodes of a new file stand in another order, or are others.

ghost use Rattle.std.specs.Prelude.{◌≡◌, ◌≤◌, ◌++◌, ℕ, List, false, is_none, length, map, slice_index, IfOk, IfSome};
ghost use Rattle.plain_data.specs.Confs.{ConfView};
ghost use Rattle.node_state.specs.Reservations.{has};
ghost use Rattle.ctl_state.specs.State.{state_of};
ghost use Rattle.ctl_reconfigure.specs.Making;
ghost use Rattle.ctl_reconfigure.specs.Moves.{AreMoves};
ghost use Rattle.ctl_reconfigure.specs.Moving;
ghost use Rattle.ctl_reconfigure.specs.Names as names;
ghost use Rattle.ctl_reconfigure.specs.Reconfiguring.{dropped_by, gone_by, keeps_places, planned_names};

use crate::leaving::{dropped_after, gone_after};
use crate::names::{
    conf_names, node_names, origins_of, places_moved, places_of, push_all, same_names,
};
use crate::record::Moves;
use backfill_planner::{Placed, Share};
use ctl_state::cluster::Cluster;
use job_table::jobs::Jobs;
use node_state::names::first_places;
use node_state::record::DroppedNode;
use plain_data::conf::Conf;
use plain_data::items::Items;
use small_texts::memory_error::Memory;
use small_texts::name::Name;
use std::alloc::Global;
use std::mem;

// The pairs of those that are dropped once these are the nodes.
fn dropped_then(alloc: Global, cluster: &Cluster, now: &[Name]) -> Result<Vec<DroppedNode>, Memory>
    ensures { IfOk result (λ all. all.items
        ≡ dropped_by (has now.now) cluster.now.dropped.items cluster.now.nodes.records) }
{
    let lines = first_places(alloc, now)?;
    dropped_after(
        alloc,
        &lines,
        cluster.dropped.as_slice(),
        cluster.nodes.records(),
    )
}

// Those of the names that the plan names and that are none of these.
fn gone_then(
    alloc: Global,
    cluster: &Cluster,
    names: &[Name],
    now: &[Name],
) -> Result<Vec<Name>, Memory>
    ensures { IfOk result (λ gone. gone.items
        ≡ gone_by (has now.now) (has (planned_names names.now cluster.now.plan.items)) names.now) }
{
    let lines = first_places(alloc, now)?;
    gone_after(alloc, &lines, names, cluster.plan.as_slice())
}

fn joined(alloc: Global, names: &[Name], more: &[Name]) -> Result<Vec<Name>, Memory>
    ensures { IfOk result (λ all. all.items ≡ names.now ++ more.now) }
{
    let mut all = Vec::with_capacity(alloc, names.len())?;
    push_all(&mut all, names)?;
    push_all(&mut all, more)?;
    Ok(all)
}

// What moves where the nodes had these names and have those now, which aren't the same.
fn made(alloc: Global, cluster: &Cluster, before: &[Name], now: &[Name]) -> Result<Moves, Memory>
    requires { length now.now ≤ 1024 }
    ensures { (conf : ConfView) → before.now ≡ names.node_names cluster.now.nodes.records
        → now.now ≡ names.conf_names conf.nodes → names.same_names before.now now.now ≡ false
        → IfOk result (AreMoves (state_of cluster.now) conf) }
{
    let names = joined(alloc, before, cluster.gone.as_slice())?;
    let gone = gone_then(alloc, cluster, names.as_slice(), now)?;
    let names_now = joined(alloc, now, gone.as_slice())?;
    let shares = places_moved(alloc, names.as_slice(), names_now.as_slice())?;
    Ok(Moves {
        parts: places_of(alloc, before, now)?,
        origins: origins_of(alloc, before, now)?,
        shares,
        dropped: dropped_then(alloc, cluster, now)?,
        gone,
    })
}

/// What moves with the nodes of a new file; None where they stand as they stood. Linear in both files and in the plan,
/// but for a sort of the dropped nodes.
pub(crate) fn moves_of(
    alloc: Global,
    cluster: &Cluster,
    conf: &Conf,
) -> Result<Option<Moves>, Memory>
    ensures stay { IfOk result (λ moves. is_none moves ≡ keeps_places (state_of cluster.now) conf.now) }
    ensures made { IfOk result (λ moves. IfSome moves (AreMoves (state_of cluster.now) conf.now)) }
{
    let before = node_names(alloc, cluster.nodes.records())?;
    let now = conf_names(alloc, conf.nodes.as_slice())?;
    if same_names(before.as_slice(), now.as_slice()) {
        return Ok(None);
    }
    let moves = made(alloc, cluster, before.as_slice(), now.as_slice())?;
    Ok(Some(moves))
}

fn place_moved(places: &[u32], place: u32) -> u32
    ensures { result ≡ slice_index places.now place }
{
    places.get(place as usize).copied().unwrap_or(0)
}

fn move_shares(shares: &mut [Share], places: &[u32])
    ensures { shares.new ≡ map (Moving.share_moved places.now) shares.old }
{
    for share in shares.iter_mut() {
        share.node = place_moved(places, share.node);
    }
}

fn move_items(alloc: Global, shares: &mut Items<Share>, places: &[u32])
    ensures { shares.new ≡ map (Moving.share_moved places.now) shares.old }
{
    let mut all = mem::replace(shares, Items::from_vec(Vec::new(alloc))).into_vec();
    move_shares(all.as_mut_slice(), places);
    *shares = Items::from_vec(all);
}

fn move_placed(alloc: Global, placed: &mut Placed, places: &[u32])
    ensures { placed.new ≡ Moving.placed_moved places.now placed.old }
{
    move_items(alloc, &mut placed.parts, places);
}

fn move_each(alloc: Global, plan: &mut [Placed], places: &[u32])
    ensures { plan.new ≡ map (Moving.placed_moved places.now) plan.old }
{
    for placed in plan.iter_mut() {
        move_placed(alloc, placed, places);
    }
}

/// The plan's shares are of the same nodes, which are at these places now, or where they were. Linear in them; it takes
/// no memory.
pub(crate) fn move_plan(alloc: Global, plan: &mut Vec<Placed>, places: &Option<Vec<u32>>)
    ensures { (before now : List (List ℕ)) → is_none places.now ≡ names.same_names before now
        → IfSome places.now (λ all. all.items ≡ names.places_of before now)
        → plan.new.items ≡ map (Moving.placed_renamed before now) plan.old.items }
{
    if let Some(places) = places {
        move_each(alloc, plan.as_mut_slice(), places);
    }
}

/// The jobs are of the same partitions, which are at these places now, or where they were. Linear in them; it takes no
/// memory.
pub(crate) fn move_jobs(jobs: &mut Jobs, places: &Option<Vec<u32>>)
    ensures records { (before now : List (List ℕ)) → is_none places.now ≡ names.same_names before now
        → IfSome places.now (λ all. all.items ≡ names.places_of before now)
        → jobs.new.records ≡ map (Moving.job_renamed before now) jobs.old.records }
    ensures usage { jobs.new.usage ≡ jobs.old.usage }
{
    if let Some(places) = places {
        jobs.move_partitions(places);
    }
}

// What tells of nodes by their places tells of the same ones.
fn move_all(alloc: Global, cluster: &mut Cluster, moves: Moves)
    ensures state { (conf : ConfView) → AreMoves (state_of cluster.old) conf moves
        → state_of cluster.new ≡ Making.moved (state_of cluster.old) conf }
    ensures nodes { cluster.new.nodes ≡ cluster.old.nodes }
{
    cluster.jobs.move_parts(&moves.parts);
    cluster.reservations.move_nodes(&moves.origins);
    move_plan(alloc, &mut cluster.plan, &moves.shares);
    cluster.dropped = moves.dropped;
    cluster.gone = moves.gone;
}

/// What tells of nodes by their places tells of the same ones, also where they are at others. Linear in the jobs, their
/// parts and the plan, and for each reservation in the nodes; it takes no memory.
pub(crate) fn follow(alloc: Global, cluster: &mut Cluster, moves: Option<Moves>)
    ensures state { (conf : ConfView) → is_none moves ≡ keeps_places (state_of cluster.old) conf
        → IfSome moves (AreMoves (state_of cluster.old) conf)
        → state_of cluster.new ≡ Making.moved (state_of cluster.old) conf }
    ensures nodes { cluster.new.nodes ≡ cluster.old.nodes }
{
    if let Some(moves) = moves {
        move_all(alloc, cluster, moves);
    }
}
