//! What reservations leave to a job.

ghost use Rattle.std.specs.Prelude.{◌≡◌, ◌++◌, ◌&&◌, IfOk, OnOk, filter, find, nat_lt, option_copied};
ghost use Rattle.plain_data.specs.Rows.{has_id};
ghost use Rattle.node_state.specs.declared.reservation_record.Reservation.{Reservation as OneReservation};
ghost use Rattle.node_state.specs.Reservations.{is_named, lasting, reservation_named};
ghost use Rattle.ctl_state.specs.Planning;

use backfill_planner::{Barred, BarredList, NodeList};
use node_state::reservation_record::Reservation;
use node_state::reservations::Reservations;
use plain_data::seconds::FOREVER;
use small_texts::memory_error::Memory;
use small_texts::name::Name;
use std::alloc::Global;

// The first reservation that has this name and isn't over at the moment.
fn first_lasting<'a>(
    reservations: &'a [Reservation],
    now: u64,
    name: &Name,
) -> Option<&'a Reservation>
    ensures { option_copied result
        ≡ find (λ (one : OneReservation). nat_lt now one.end && is_named name.now one) reservations.now }
{
    reservations
        .iter()
        .find(|one| now < one.end.get() && name.is(&one.name))
}

/// The reservation of this name that isn't over at the moment. Linear in the reservations.
pub fn lasting_named<'a>(
    reservations: &'a Reservations,
    now: u64,
    name: &Name,
) -> Option<&'a Reservation>
    ensures { option_copied result ≡ reservation_named name.now (lasting now reservations.now) }
{
    first_lasting(reservations.records(), now, name)
}

// Those of the places at which the reservation has nodes.
fn kept_places(alloc: Global, reservation: &Reservation, places: &[u32]) -> Result<Vec<u32>, Memory>
    ensures { IfOk result (λ kept. kept.items ≡ filter (has_id reservation.now.nodes) places.now) }
{
    Ok(
        places
            .iter()
            .copied()
            .filter(|place| reservation.nodes.contains(*place))
            .collect(alloc)?,
    )
}

/// Those of the places at which the reservation has nodes. Linear in the places.
pub fn places_in(
    alloc: Global,
    reservation: &Reservation,
    places: &NodeList,
) -> Result<NodeList, Memory>
    ensures { IfOk result (λ kept. kept ≡ filter (has_id reservation.now.nodes) places.now) }
{
    NodeList::from_vec(kept_places(alloc, reservation, places.as_slice())?)
}

// Whether the job that names this reservation, or none, names this one.
fn is_theirs(name: &Option<Name>, reservation: &Reservation) -> bool
    ensures { result ≡ Planning.is_theirs name.now reservation.now }
{
    match name {
        Some(name) => name.is(&reservation.name),
        None => false,
    }
}

// Adds the times at which a job that names this reservation, or none, may not have the nodes of one.
fn push_barred(
    times: &mut Vec<Barred>,
    reservation: &Reservation,
    name: &Option<Name>,
) -> Result<(), Memory>
    ensures { OnOk result (times.new.items ≡ times.old.items ++ Planning.barred_by name.now reservation.now) }
{
    if is_theirs(name, reservation) {
        times.push(Barred {
            nodes: reservation.nodes.copy(),
            from: 0,
            until: reservation.start.get(),
        })?;
        times.push(Barred {
            nodes: reservation.nodes.copy(),
            from: reservation.end.get(),
            until: FOREVER,
        })?;
    } else {
        times.push(Barred {
            nodes: reservation.nodes.copy(),
            from: reservation.start.get(),
            until: reservation.end.get(),
        })?;
    }
    Ok(())
}

/// The times at which a job that names this reservation, or none, may not have the nodes of those that aren't over at
/// the moment. Linear in the reservations; those of the many jobs that name none are kept by node, which
/// `BarredList::by_node` says the cost of.
#[tactic(auto, unfolding(crate::specs::Planning::barred_of))]
pub fn barred_for(
    alloc: Global,
    reservations: &Reservations,
    now: u64,
    name: &Option<Name>,
) -> Result<BarredList, Memory>
    ensures { IfOk result (λ barred. barred ≡ Planning.barred_of (lasting now reservations.now) name.now) }
{
    let mut times = Vec::new(alloc);
    for reservation in reservations.records() {
        if now < reservation.end.get() {
            push_barred(&mut times, reservation, name)?;
        }
    }
    match name {
        Some(_) => BarredList::from_vec(times),
        None => BarredList::by_node(times),
    }
}
