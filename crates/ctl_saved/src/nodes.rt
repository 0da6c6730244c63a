//! What is saved of nodes, of partitions and of reservations.

ghost use Rattle.std.specs.Prelude.{◌≡◌, IfOk, map};
ghost use Rattle.ctl_saved.specs.Saving as spec;

use node_state::partition_record::PartRecord;
use node_state::record::{DroppedNode, NodeRecord};
use node_state::reservation_record::Reservation;
use saved_data::parts::{SavedNode, SavedPartition, SavedReservation};
use small_texts::memory_error::Memory;
use small_texts::name::Name;
use std::alloc::Global;

pub fn saved_partitions(
    alloc: Global,
    partitions: &[PartRecord],
) -> Result<Vec<SavedPartition>, Memory>
    ensures { IfOk result (λ saved. saved.items ≡ map spec.saved_partition partitions.now) }
{
    let mut saved = Vec::with_capacity(alloc, partitions.len())?;
    for partition in partitions {
        saved.push(SavedPartition {
            name: partition.conf.name.copy()?,
            state: partition.state,
        })?;
    }
    Ok(saved)
}

pub fn saved_nodes(alloc: Global, nodes: &[NodeRecord]) -> Result<Vec<SavedNode>, Memory>
    ensures { IfOk result (λ saved. saved.items ≡ map spec.saved_node nodes.now) }
{
    let mut saved = Vec::with_capacity(alloc, nodes.len())?;
    for node in nodes {
        saved.push(SavedNode {
            name: node.conf.name.copy()?,
            down: node.down,
            drain: node.drain,
            empty: node.empty,
            heard: node.heard,
        })?;
    }
    Ok(saved)
}

/// Equal nodes.
pub fn copied_dropped(alloc: Global, dropped: &[DroppedNode]) -> Result<Vec<DroppedNode>, Memory>
    ensures { IfOk result (λ copies. copies.items ≡ dropped.now) }
{
    let mut copies = Vec::with_capacity(alloc, dropped.len())?;
    for node in dropped {
        copies.push(DroppedNode {
            name: node.name.copy()?,
            boot: node.boot,
            number: node.number,
        })?;
    }
    Ok(copies)
}

/// The name of the node at a place.
pub fn name_at(nodes: &[NodeRecord], place: u32) -> Result<Option<Name>, Memory>
    ensures { IfOk result (λ name. name ≡ spec.name_at nodes.now place) }
{
    match nodes.get(place as usize) {
        Some(node) => Ok(Some(node.conf.name.copy()?)),
        None => Ok(None),
    }
}

#[tactic(auto, unfolding(crate::specs::Saving::saved_reservation))]
fn saved_reservation(reservation: &Reservation) -> Result<SavedReservation, Memory>
    ensures { IfOk result (λ saved. saved ≡ spec.saved_reservation reservation.now) }
{
    Ok(SavedReservation {
        name: reservation.name.copy()?,
        start: reservation.start.get(),
        end: reservation.end.get(),
        nodes: reservation.names.copy()?,
        users: reservation.users.copy()?,
        accounts: reservation.accounts.copy()?,
    })
}

pub fn saved_reservations(
    alloc: Global,
    reservations: &[Reservation],
) -> Result<Vec<SavedReservation>, Memory>
    ensures { IfOk result (λ saved. saved.items ≡ map spec.saved_reservation reservations.now) }
{
    let mut saved = Vec::with_capacity(alloc, reservations.len())?;
    for reservation in reservations {
        saved.push(saved_reservation(reservation)?)?;
    }
    Ok(saved)
}
