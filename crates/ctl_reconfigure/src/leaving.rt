//! The nodes that go: what stays known of those that were heard, and of those that the plan names.

ghost use Rattle.std.specs.Prelude.{◌≡◌, ◌++◌, ◌∷◌, ◌&&◌, ◌||◌, ℕ, List, [], filter, filter_map, if◌then◌else◌, not, bytes_eq, is_some, slice_get, IfOk, OnOk};
ghost use Rattle.std.specs.HashMap.{get};
ghost use Rattle.std.specs.HashSet.{contains};
ghost use Rattle.std.specs.Option.{option_to_list};
ghost use Rattle.std.specs.Ordering.{is_lt};
ghost use Rattle.backfill_planner.specs.declared.Share.{Share as OneShare};
ghost use Rattle.node_state.specs.declared.record.DroppedNode.{DroppedNode as OneDropped};
ghost use Rattle.node_state.specs.Reservations.{has};
ghost use Rattle.ctl_reconfigure.specs.Reconfiguring as spec;

use backfill_planner::{Placed, Share};
use ctl_state::laws::a_stable_sort_makes_the_order;
use node_state::record::{DroppedNode, NodeRecord};
use small_texts::memory_error::Memory;
use small_texts::name::Name;
use std::alloc::Global;
use std::cmp::Ordering;
use std::collections::{HashMap, HashSet};

fn copied(node: &DroppedNode) -> Result<DroppedNode, Memory>
    ensures { IfOk result (λ copy. copy ≡ node.now) }
{
    Ok(DroppedNode {
        name: node.name.copy()?,
        boot: node.boot,
        number: node.number,
    })
}

// Adds a node that has no line, by the places of the lines' names.
fn push_unlisted(
    all: &mut Vec<DroppedNode>,
    lines: &HashMap<Name, usize>,
    node: &DroppedNode,
) -> Result<(), Memory>
    ensures { OnOk result (all.new.items
        ≡ all.old.items ++ (if not (is_some (get bytes_eq lines.now node.now.name)) then node.now ∷ [] else [])) }
{
    if !lines.contains_key(&node.name) {
        all.push(copied(node)?)?;
    }
    Ok(())
}

// Adds those that have no line, by the places of the lines' names.
fn push_kept(
    all: &mut Vec<DroppedNode>,
    lines: &HashMap<Name, usize>,
    dropped: &[DroppedNode],
) -> Result<(), Memory>
    ensures { OnOk result (all.new.items ≡ all.old.items
        ++ filter (λ (node : OneDropped). not (is_some (get bytes_eq lines.now node.name))) dropped.now) }
{
    for node in dropped {
        push_unlisted(all, lines, node)?;
    }
    Ok(())
}

// The pair of a node, where it was heard.
fn dropped_as(node: &NodeRecord) -> Result<Option<DroppedNode>, Memory>
    ensures { IfOk result (λ dropped. dropped ≡ spec.dropped_as node.now.conf.name node.now.heard) }
{
    match node.heard {
        Some(heard) => Ok(Some(DroppedNode {
            name: node.conf.name.copy()?,
            boot: heard.boot,
            number: heard.number,
        })),
        None => Ok(None),
    }
}

// The pair of a node that has no line, where it was heard.
fn leaves(lines: &HashMap<Name, usize>, node: &NodeRecord) -> Result<Option<DroppedNode>, Memory>
    ensures { IfOk result (λ dropped. dropped ≡ spec.leaves (λ name. is_some (get bytes_eq lines.now name)) node.now) }
{
    if lines.contains_key(&node.conf.name) {
        return Ok(None);
    }
    dropped_as(node)
}

// Adds what there is.
fn push_found(all: &mut Vec<DroppedNode>, found: Option<DroppedNode>) -> Result<(), Memory>
    ensures { OnOk result (all.new.items ≡ all.old.items ++ option_to_list found) }
{
    if let Some(dropped) = found {
        all.push(dropped)?;
    }
    Ok(())
}

// Adds the pairs of the nodes that have no line and were heard.
fn push_leaving(
    all: &mut Vec<DroppedNode>,
    lines: &HashMap<Name, usize>,
    nodes: &[NodeRecord],
) -> Result<(), Memory>
    ensures { OnOk result (all.new.items ≡ all.old.items
        ++ filter_map (spec.leaves (λ name. is_some (get bytes_eq lines.now name))) nodes.now) }
{
    for node in nodes {
        push_found(all, leaves(lines, node)?)?;
    }
    Ok(())
}

fn compare(one: &DroppedNode, other: &DroppedNode) -> Ordering
    ensures { is_lt result ≡ spec.is_before one.now other.now }
{
    one.name.cmp(&other.name)
}

/// Those that were heard and are dropped, in byte order of their names, by the places of the lines' names. Linear, but
/// for a sort.
pub(crate) fn dropped_after(
    alloc: Global,
    lines: &HashMap<Name, usize>,
    dropped: &[DroppedNode],
    nodes: &[NodeRecord],
) -> Result<Vec<DroppedNode>, Memory>
    ensures { IfOk result (λ all. all.items
        ≡ spec.dropped_by (λ name. is_some (get bytes_eq lines.now name)) dropped.now nodes.now) }
{
    a_stable_sort_makes_the_order::<DroppedNode>();
    let mut all = Vec::with_capacity(alloc, dropped.len())?;
    push_kept(&mut all, lines, dropped)?;
    push_leaving(&mut all, lines, nodes)?;
    all.sort_by(compare)?;
    Ok(all)
}

// Adds a name, unless it is there.
fn add_name(planned: &mut HashSet<Name>, name: &Name) -> Result<(), Memory>
    ensures { OnOk result ((other : List ℕ) → contains bytes_eq planned.new other
        ≡ (contains bytes_eq planned.old other || bytes_eq other name.now)) }
{
    if !planned.contains(name) {
        planned.insert(name.copy()?)?;
    }
    Ok(())
}

// Adds the name that a share stands for, if there is one.
fn add_share(planned: &mut HashSet<Name>, names: &[Name], share: &Share) -> Result<(), Memory>
    ensures { OnOk result ((name : List ℕ) → contains bytes_eq planned.new name
        ≡ (contains bytes_eq planned.old name || has (option_to_list (slice_get names.now share.now.node)) name)) }
{
    match names.get(share.node as usize) {
        Some(name) => add_name(planned, name),
        None => Ok(()),
    }
}

// Adds the names that the shares stand for.
fn add_shares(planned: &mut HashSet<Name>, names: &[Name], shares: &[Share]) -> Result<(), Memory>
    ensures { OnOk result ((name : List ℕ) → contains bytes_eq planned.new name
        ≡ (contains bytes_eq planned.old name
        || has (filter_map (λ (share : OneShare). slice_get names.now share.node) shares.now) name)) }
{
    for share in shares {
        add_share(planned, names, share)?;
    }
    Ok(())
}

// The names that the plan names.
fn planned_names(alloc: Global, names: &[Name], plan: &[Placed]) -> Result<HashSet<Name>, Memory>
    ensures { IfOk result (λ planned. (name : List ℕ) → contains bytes_eq planned name
        ≡ has (spec.planned_names names.now plan.now) name) }
{
    let mut planned = HashSet::new(alloc);
    for placed in plan {
        add_shares(&mut planned, names, placed.parts.as_slice())?;
    }
    Ok(planned)
}

// Adds a name that is planned and has no line.
fn push_gone(
    gone: &mut Vec<Name>,
    lines: &HashMap<Name, usize>,
    planned: &HashSet<Name>,
    name: &Name,
) -> Result<(), Memory>
    ensures { OnOk result (gone.new.items ≡ gone.old.items ++ (if contains bytes_eq planned.now name.now
        && not (is_some (get bytes_eq lines.now name.now)) then name.now ∷ [] else [])) }
{
    if planned.contains(name) && !lines.contains_key(name) {
        gone.push(name.copy()?)?;
    }
    Ok(())
}

/// The names that the plan names and that have no line, by the places of the lines' names. Linear in the names and in the
/// plan.
pub(crate) fn gone_after(
    alloc: Global,
    lines: &HashMap<Name, usize>,
    names: &[Name],
    plan: &[Placed],
) -> Result<Vec<Name>, Memory>
    ensures { IfOk result (λ gone. gone.items ≡ spec.gone_by (λ name. is_some (get bytes_eq lines.now name))
        (has (spec.planned_names names.now plan.now)) names.now) }
{
    let planned = planned_names(alloc, names, plan)?;
    let mut gone = Vec::new(alloc);
    for name in names {
        push_gone(&mut gone, lines, &planned, name)?;
    }
    Ok(gone)
}
