//! Whether two jobs may not have their nodes at the same times.

ghost use Rattle.std.specs.Prelude.{◌≡◌, ◌≤◌, ◌<◌, ◌↔◌, Bool, true, filter, length, drop, slice_index_or};
ghost use Rattle.std.specs.List.{list_any};
ghost use Rattle.plain_data.specs.Rows.{has_id};
ghost use Rattle.backfill_planner.specs.declared.job.Barred.{Barred as Time};
ghost use Rattle.plan_keeper.specs.Steady;

use backfill_planner::Barred;
use plain_data::NodePlaces;

/// Whether these are the same times, in one order.
pub fn are_same_times(one: &[Barred], other: &[Barred]) -> bool
    ensures { (result ≡ true) ↔ (one.now ≡ other.now) }
{
    one == other
}

// Whether these are one time.
fn is_same_time(one: &Barred, other: &Barred) -> bool
    ensures { (result ≡ true) ↔ (one.now ≡ other.now) }
{
    one == other
}

// Whether one of the nodes is among these.
fn has_any(row: &NodePlaces, nodes: &[u32]) -> bool
    ensures { result ≡ list_any (has_id row.now) nodes.now }
{
    nodes.iter().any(|node| row.contains(*node))
}

// Whether the time ends later than now, and is one of these nodes'.
fn is_ahead(time: &Barred, nodes: &[u32], now: u64) -> bool
    ensures { result ≡ Steady.is_ahead now nodes.now time.now }
{
    now < time.until && has_any(&time.nodes, nodes)
}

// The first place from this one on of such a time; the end of the list where there is none.
fn next_ahead(times: &[Barred], from: usize, nodes: &[u32], now: u64) -> usize
    requires { from ≤ length times.now }
    ensures within { result ≤ length times.now }
    ensures passed { filter (Steady.is_ahead now nodes.now) (drop from times.now)
        ≡ filter (Steady.is_ahead now nodes.now) (drop result times.now) }
    ensures ahead { (d : Time) → result < length times.now
        → Steady.is_ahead now nodes.now (slice_index_or times.now result d) ≡ true }
{
    for place in from..times.len() {
        if is_ahead(&times[place], nodes, now) {
            return place;
        }
    }
    times.len()
}

// Whether of both lists such times are the same, in one order.
fn are_same_behind(old: &[Barred], new: &[Barred], nodes: &[u32], now: u64) -> bool
    ensures { (result ≡ true) ↔ (filter (Steady.is_ahead now nodes.now) old.now
        ≡ filter (Steady.is_ahead now nodes.now) new.now) }
{
    let mut place = 0;
    for time in old {
        if is_ahead(time, nodes, now) {
            place = next_ahead(new, place, nodes, now);
            if place == new.len() || !is_same_time(&new[place], time) {
                return false;
            }
            place += 1;
        }
    }
    next_ahead(new, place, nodes, now) == new.len()
}

/// Whether those of the times are the same, in one order, that end later than now and are one of these nodes'. Linear in
/// the times of both, and where they differ in their nodes too.
pub fn are_same_ahead(old: &[Barred], new: &[Barred], nodes: &[u32], now: u64) -> bool
    ensures { (result ≡ true) ↔ (filter (Steady.is_ahead now nodes.now) old.now
        ≡ filter (Steady.is_ahead now nodes.now) new.now) }
{
    are_same_times(old, new) || are_same_behind(old, new, nodes, now)
}
