//! The nodes that a job may get.

ghost use Rattle.std.specs.Prelude.{◌≡◌, ◌↔◌, ◌<◌, [], length, filter, None, IfOk, IsTrue, All};
ghost use Rattle.std.specs.List.{list_any};
ghost use Rattle.node_state.specs.Nodes.{is_named};
ghost use Rattle.node_state.specs.Reservations.{has};
ghost use Rattle.ctl_state.specs.Planning.{are_there, is_at, may_run, must_have, nodes_among, required_first};

use backfill_planner::NodeList;
use job_table::terms::Terms;
use node_state::record::NodeRecord;
use node_state::standing::has_features;
use plain_data::items::Items;
use small_texts::memory_error::Memory;
use small_texts::name::Name;
use std::alloc::Global;

// Whether the name is among the names.
fn has(names: &Items<Name>, name: &Name) -> bool
    ensures { result ≡ has names.now name.now }
{
    names.iter().any(|one| name.is(one))
}

/// Whether a job on these terms may run on the node, as far as they say.
pub fn may_run(terms: &Terms, node: &NodeRecord) -> bool
    ensures { result ≡ may_run terms.now node.now }
{
    let may = !has(&terms.excluded, &node.conf.name);
    match &terms.features {
        Some(features) => may && has_features(node, features),
        None => may,
    }
}

fn may_run_at(nodes: &[NodeRecord], terms: &Terms, place: u32) -> bool
    ensures { result ≡ is_at (may_run terms.now) nodes.now place }
{
    nodes
        .get(place as usize)
        .is_some_and(|node| may_run(terms, node))
}

fn must_have_at(nodes: &[NodeRecord], terms: &Terms, place: u32) -> bool
    ensures { result ≡ is_at (must_have terms.now) nodes.now place }
{
    nodes
        .get(place as usize)
        .is_some_and(|node| has(&terms.required, &node.conf.name))
}

fn is_named_at(nodes: &[NodeRecord], name: &Name, place: u32) -> bool
    ensures { result ≡ is_at (is_named name.now) nodes.now place }
{
    nodes
        .get(place as usize)
        .is_some_and(|node| node.conf.name.is(name))
}

// Those of the places at which the job may run.
fn allowed(
    alloc: Global,
    nodes: &[NodeRecord],
    terms: &Terms,
    order: &[u32],
) -> Result<Vec<u32>, Memory>
    ensures { IfOk result (λ places. places.items ≡ filter (is_at (may_run terms.now) nodes.now) order.now) }
{
    Ok(
        order
            .iter()
            .copied()
            .filter(|place| may_run_at(nodes, terms, *place))
            .collect(alloc)?,
    )
}

// Whether the node with this name is at one of the places.
fn is_there(nodes: &[NodeRecord], name: &Name, places: &[u32]) -> bool
    ensures { result ≡ list_any (is_at (is_named name.now) nodes.now) places.now }
{
    places.iter().any(|place| is_named_at(nodes, name, *place))
}

// Whether each node that the job must have is at one of the places.
fn are_there(nodes: &[NodeRecord], terms: &Terms, places: &[u32]) -> bool
    ensures { result ≡ are_there nodes.now terms.now places.now }
{
    terms
        .required
        .iter()
        .all(|name| is_there(nodes, name, places))
}

// The places, those of nodes that the job must have first.
fn required_first(
    alloc: Global,
    nodes: &[NodeRecord],
    terms: &Terms,
    places: &[u32],
) -> Result<Vec<u32>, Memory>
    ensures { IfOk result (λ first. first.items ≡ required_first nodes.now terms.now places.now) }
{
    let required = places
        .iter()
        .copied()
        .filter(|place| must_have_at(nodes, terms, *place));
    let others = places
        .iter()
        .copied()
        .filter(|place| !must_have_at(nodes, terms, *place));
    Ok(required.chain(others).collect(alloc)?)
}

// Whether the job says nothing of its nodes.
fn takes_any(terms: &Terms) -> bool
    ensures { IsTrue result ↔ ((terms.now.required ≡ []) × (terms.now.excluded ≡ []) × (terms.now.features ≡ None)) }
{
    terms.required.as_slice().is_empty()
        && terms.excluded.as_slice().is_empty()
        && terms.features.is_none()
}

/// The places of the job's nodes among those of a partition in their order, in the order in which it takes them. A job
/// that says nothing of its nodes shares the order, in constant time; for any other it is linear in the nodes, and for
/// each of them in what the job names.
pub(crate) fn nodes_among(
    alloc: Global,
    nodes: &[NodeRecord],
    terms: &Terms,
    order: &NodeList,
) -> Result<NodeList, Memory>
    requires { All (λ place. place < length nodes.now) order.now }
    ensures { IfOk result (λ places. places ≡ nodes_among nodes.now terms.now order.now) }
{
    if takes_any(terms) {
        return order.share();
    }
    let places = allowed(alloc, nodes, terms, order.as_slice())?;
    if !are_there(nodes, terms, &places) {
        return NodeList::from_vec(Vec::new(alloc));
    }
    NodeList::from_vec(required_first(alloc, nodes, terms, &places)?)
}
