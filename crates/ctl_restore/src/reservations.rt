//! The reservations, by what is saved of them.

ghost use Rattle.std.specs.Prelude.{◌≡◌, ◌↔◌, IfOk, IfSome, IsSome, IsTrue, All, map};
ghost use Rattle.node_state.specs.Reservations.{AreReservations, Fits};
ghost use Rattle.ctl_nodes.specs.Reserving.{places_among};
ghost use Rattle.ctl_restore.specs.Fits.{HasSeconds};
ghost use Rattle.ctl_restore.specs.Restored as spec;

use ctl_nodes::places_of;
use node_state::nodes::Nodes;
use node_state::reservation_record::Reservation;
use node_state::reservations::Reservations;
use plain_data::NodePlaces;
use plain_data::ranged::LongRanged;
use saved_data::parts::SavedReservation;
use small_texts::memory_error::Memory;
use small_texts::name::Name;
use std::alloc::Global;

// The places of the nodes with these names.
fn places_among(nodes: &Nodes, names: &[Name]) -> NodePlaces
    ensures { result ≡ places_among nodes.now.records names.now }
{
    let _records = nodes.records();
    let places = places_of(nodes, names);
    places.tell_rising();
    places
}

// The reservation, where its seconds are within their bounds.
#[tactic(auto, unfolding(crate::specs::Restored::restored_reservation))]
fn restored_reservation(
    nodes: &Nodes,
    line: &SavedReservation,
) -> Result<Option<Reservation>, Memory>
    ensures some { IfOk result (λ found. IsSome found ↔ HasSeconds line.now) }
    ensures value { IfOk result (λ found. IfSome found (λ restored. restored ≡ spec.restored_reservation nodes.now.records line.now)) }
{
    let (Some(start), Some(end)) = (
        LongRanged::try_new(line.start),
        LongRanged::try_new(line.end),
    ) else {
        return Ok(None);
    };
    Ok(Some(Reservation {
        name: line.name.copy()?,
        start,
        end,
        nodes: places_among(nodes, line.nodes.as_slice()),
        names: line.nodes.copy()?,
        users: line.users.copy()?,
        accounts: line.accounts.copy()?,
    }))
}

// Whether the reservation can stand beside these. Linear in them.
fn fits(reservations: &Reservations, wanted: &Reservation) -> bool
    ensures { IsTrue result ↔ Fits reservations.now wanted.now }
{
    let (start, end) = (wanted.start.get(), wanted.end.get());
    !reservations.refuses(&wanted.name, start, end, 0)
        && !reservations.overlaps(&wanted.nodes, start, end)
}

/// The reservations: None where a second of one is out of its bounds, or they can't stand beside each other. Quadratic in
/// them, of which there are 256 at most.
pub fn restored_reservations(
    alloc: Global,
    nodes: &Nodes,
    lines: &[SavedReservation],
) -> Result<Option<Reservations>, Memory>
    ensures some { IfOk result (λ found. IsSome found
        ↔ (All HasSeconds lines.now × AreReservations (map (spec.restored_reservation nodes.now.records) lines.now))) }
    ensures value { IfOk result (λ found. IfSome found (λ restored. restored
        ≡ map (spec.restored_reservation nodes.now.records) lines.now)) }
{
    let mut reservations = Reservations::new(alloc);
    for line in lines {
        let Some(wanted) = restored_reservation(nodes, line)? else {
            return Ok(None);
        };
        if !fits(&reservations, &wanted) {
            return Ok(None);
        }
        reservations.add(wanted)?;
    }
    let _records = reservations.records();
    Ok(Some(reservations))
}
