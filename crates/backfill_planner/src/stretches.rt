//! The seconds at which a job may not have a node, node by node.

ghost use Rattle.std.specs.Prelude.{◌≡◌, ℕ, [], map, slice_get, unwrap_or, IfOk};
ghost use Rattle.std.specs.List.{list_any};
ghost use Rattle.plain_data.specs.Rows.{has_id};
ghost use Rattle.backfill_planner.specs.declared.job.Barred.{Barred as Time};
ghost use Rattle.backfill_planner.specs.Stretches.{stretches_of, HoldsStretches};

use crate::job::Barred;
use plain_data::NodePlaces;
use small_texts::memory_error::Memory;
use std::alloc::Global;

// The nodes that a time may have are below this number.
const NODES: u32 = 1024;

// The seconds from `from` on and before `until`, which are since 1970.
#[derive(Clone, Copy)]
pub(crate) struct Stretch {
    pub(crate) from: u64,
    pub(crate) until: u64,
}

// The nodes that are in one of the times.
fn nodes_in(times: &[Barred]) -> NodePlaces
    ensures { (node : ℕ) → has_id result node ≡ list_any (λ (time : Time). has_id time.nodes node) times.now }
{
    let mut nodes = NodePlaces::none();
    for time in times {
        nodes.insert_all(&time.nodes);
    }
    nodes
}

// The seconds of the times that have the node.
fn stretches_at(alloc: Global, times: &[Barred], node: u32) -> Result<Vec<Stretch>, Memory>
    ensures { IfOk result (λ stretches. stretches.items ≡ stretches_of node times.now) }
{
    Ok(
        times
            .iter()
            .filter(|time| time.nodes.contains(node))
            .map(|time| Stretch {
                from: time.from,
                until: time.until,
            })
            .collect(alloc)?,
    )
}

// The node's row, where `nodes` are those that are in one of the times.
fn row(
    alloc: Global,
    nodes: &NodePlaces,
    times: &[Barred],
    node: u32,
) -> Result<Vec<Stretch>, Memory>
    requires { has_id nodes.now node ≡ list_any (λ (time : Time). has_id time.nodes node) times.now }
    ensures { IfOk result (λ stretches. stretches.items ≡ stretches_of node times.now) }
{
    if nodes.contains(node) {
        stretches_at(alloc, times, node)
    } else {
        Ok(Vec::new(alloc))
    }
}

// The seconds of the times by their nodes. Where there is no time it takes no memory; else it takes a place for each of
// the 1,024 nodes, and walks all times for each node that one of them has.
pub(crate) fn rows_of(alloc: Global, times: &[Barred]) -> Result<Vec<Vec<Stretch>>, Memory>
    ensures { IfOk result (λ rows. HoldsStretches (map (λ row. row.items) rows.items) times.now) }
{
    if times.is_empty() {
        return Ok(Vec::new(alloc));
    }
    let nodes = nodes_in(times);
    nodes.tell_rising();
    let mut rows = Vec::with_capacity(alloc, NODES as usize)?;
    for node in 0..NODES {
        rows.push(row(alloc, &nodes, times, node)?)?;
    }
    Ok(rows)
}

// What the row of the node holds: nothing where there is none.
pub(crate) fn row_at(rows: &[Vec<Stretch>], node: u32) -> &[Stretch]
    ensures { result.now ≡ unwrap_or (slice_get (map (λ row. row.items) rows.now) node) [] }
{
    match rows.get(node as usize) {
        Some(stretches) => stretches.as_slice(),
        None => &[],
    }
}
