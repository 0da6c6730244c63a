//! The rows of reservations.

ghost use Rattle.std.specs.Prelude.{◌≡◌, IfOk};
ghost use Rattle.ctl_state.specs.State.{state_of};
ghost use Rattle.ctl_show.specs.Records;

use crate::shown_partitions::names_at;
use ctl_state::cluster::Cluster;
use node_state::record::NodeRecord;
use node_state::reservation_record::Reservation;
use plain_data::items::Items;
use plain_data::ranged::LongRanged;
use reply_data::view::{ResRow, Row};
use small_texts::memory_error::Memory;
use small_texts::name::Name;
use std::alloc::Global;

// Whether the reservation is the one that is asked for, if one is.
fn is_meant(asked: &Option<Name>, reservation: &Reservation) -> bool
    ensures { result ≡ Records.is_meant asked.now reservation.now }
{
    match asked {
        Some(name) => name.is(&reservation.name),
        None => true,
    }
}

// What is shown of the reservation.
#[tactic(auto, unfolding(crate::specs::Records::reservation_row))]
fn reservation_row(
    alloc: Global,
    nodes: &[NodeRecord],
    reservation: &Reservation,
) -> Result<ResRow, Memory>
    ensures { IfOk result (λ row. row ≡ Records.reservation_row nodes.now reservation.now) }
{
    let places = reservation.nodes.to_vec(alloc)?;
    let names = names_at(alloc, nodes, places.as_slice())?;
    Ok(ResRow {
        name: reservation.name.copy()?,
        start: LongRanged::new(reservation.start.get()),
        end: LongRanged::new(reservation.end.get()),
        nodes: Items::from_vec(names),
        users: reservation.users.copy()?,
        accounts: reservation.accounts.copy()?,
    })
}

/// The rows of the reservations that are asked for. Linear in the reservations, and in the nodes and names of those
/// that are shown.
pub(crate) fn reservation_rows(
    alloc: Global,
    cluster: &Cluster,
    asked: &Option<Name>,
) -> Result<Vec<Row>, Memory>
    ensures { IfOk result (λ rows. rows.items ≡ Records.reservation_rows (state_of cluster.now) asked.now) }
{
    let nodes = cluster.nodes.records();
    let mut rows = Vec::new(alloc);
    for reservation in cluster.reservations.records() {
        if is_meant(asked, reservation) {
            let row = reservation_row(alloc, nodes, reservation)?;
            rows.push(Row::Reservation(row))?;
        }
    }
    Ok(rows)
}
