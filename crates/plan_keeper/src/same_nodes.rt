//! How long as much of a node is free as was, from a moment on.

ghost use Rattle.std.specs.Prelude.{◌≡◌, ℕ, ◌≤◌, ◌<◌, length, slice_index_or, IfOk};
ghost use Rattle.plan_keeper.specs.Kept.{AreCountedAnew, IsKeptFrom};
ghost use Rattle.plan_keeper.specs.Nodes.{IsAsFree, HasNoMore};

use crate::kept::Kept;
use crate::node_seconds::NodeSeconds;
use backfill_planner::Share;
use plain_data::seconds::FOREVER;
use resource_profile::{NodeRoom, Profile};
use small_texts::memory_error::Memory;
use std::alloc::Global;

// The second before which, from `now` on, as much of the node is free in both profiles. Linear in the steps of both.
fn same_before(old: &Profile, new: &Profile, node: u32, now: u64) -> u64
    requires old { node < length old.now.rooms }
    requires new { node < length new.now.rooms }
    ensures free { IsAsFree old.now new.now now node result }
    ensures all { IsAsFree old.now new.now now node FOREVER → FOREVER ≤ result }
{
    let mut second = now;
    while second < FOREVER {
        let before = old.free_over(node, second, second + 1);
        let after = new.free_over(node, second, second + 1);
        if before.free != after.free {
            return second;
        }
        second = before
            .begins_before
            .min(before.ends_up_to)
            .min(after.begins_before)
            .min(after.ends_up_to);
    }
    second
}

// The second before which no more of the node is free in the new one, where as much is before `from`. Linear in the steps
// of both.
fn no_more_before(old: &Profile, new: &Profile, node: u32, now: u64, from: u64) -> u64
    requires old { node < length old.now.rooms }
    requires new { node < length new.now.rooms }
    requires from { IsAsFree old.now new.now now node from }
    ensures free { HasNoMore old.now new.now now node result }
    ensures later { from ≤ result }
{
    let mut second = from;
    while second < FOREVER {
        let before = old.free_over(node, second, second + 1);
        let after = new.free_over(node, second, second + 1);
        if before.free.cpus < after.free.cpus || before.free.mem < after.free.mem {
            return second;
        }
        second = before
            .begins_before
            .min(before.ends_up_to)
            .min(after.begins_before)
            .min(after.ends_up_to);
    }
    second
}

// Both seconds of a node, none of which is known where it wasn't there or has another room.
fn seconds_of(
    old: &Profile,
    old_rooms: &[NodeRoom],
    new: &Profile,
    new_rooms: &[NodeRoom],
    node: u32,
    now: u64,
) -> (u64, u64)
    requires old { old_rooms.now ≡ old.now.rooms }
    requires new { new_rooms.now ≡ new.now.rooms }
    requires inside { node < length new.now.rooms }
    ensures { IsKeptFrom old.now new.now now node result.0 result.1 }
{
    let place = node as usize;
    if place >= old_rooms.len() || old_rooms[place] != new_rooms[place] {
        return (0, 0);
    }
    let same = same_before(old, new, node, now);
    (same, no_more_before(old, new, node, now, same))
}

/// What is kept in mind of each node of the new profile before the first job. Linear in the steps of both.
pub fn first_kept(
    alloc: Global,
    old: &Profile,
    old_rooms: &[NodeRoom],
    new: &Profile,
    new_rooms: &[NodeRoom],
    now: u64,
) -> Result<Kept, Memory>
    requires old { old_rooms.now ≡ old.now.rooms }
    requires new { new_rooms.now ≡ new.now.rooms }
    ensures long { IfOk result (λ kept. length kept.same.seconds.items ≡ length new.now.rooms) }
    ensures long_no_freer { IfOk result (λ kept. length kept.no_freer.seconds.items ≡ length new.now.rooms) }
    ensures each { IfOk result (λ kept. (node : ℕ) → node < length new.now.rooms
        → IsKeptFrom old.now new.now now node
        (slice_index_or kept.same.seconds.items node 0) (slice_index_or kept.no_freer.seconds.items node 0)) }
{
    if new_rooms.len() > u32::MAX as usize {
        return Err(Memory);
    }
    let mut same = Vec::with_capacity(alloc, new_rooms.len())?;
    let mut no_freer = Vec::with_capacity(alloc, new_rooms.len())?;
    for node in 0..new_rooms.len() {
        let seconds = seconds_of(old, old_rooms, new, new_rooms, node as u32, now);
        same.push(seconds.0).unwrap();
        no_freer.push(seconds.1).unwrap();
    }
    Ok(Kept {
        same: NodeSeconds::of(same),
        no_freer: NodeSeconds::of(no_freer),
    })
}

/// Counts both seconds of each node with a part anew. Linear in the nodes, and for those with a part in the steps of both.
pub fn count_anew(
    kept: &mut Kept,
    parts: &[Share],
    old: &Profile,
    old_rooms: &[NodeRoom],
    new: &Profile,
    new_rooms: &[NodeRoom],
    now: u64,
)
    requires old { old_rooms.now ≡ old.now.rooms }
    requires new { new_rooms.now ≡ new.now.rooms }
    requires long { length kept.old.same.seconds.items ≡ length new.now.rooms }
    requires long_no_freer { length kept.old.no_freer.seconds.items ≡ length new.now.rooms }
    ensures { AreCountedAnew old.now new.now now parts.now
        kept.old.same.seconds.items kept.old.no_freer.seconds.items
        kept.new.same.seconds.items kept.new.no_freer.seconds.items }
{
    for part in parts {
        let node = part.node as usize;
        if node < new_rooms.len() {
            let seconds = seconds_of(old, old_rooms, new, new_rooms, part.node, now);
            kept.same.set(node, seconds.0);
            kept.no_freer.set(node, seconds.1);
        }
    }
    kept.same.look_again();
    kept.no_freer.look_again();
}
