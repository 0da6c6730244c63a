//! The reservations that there are.

ghost use Rattle.std.specs.Prelude.{◌≡◌, ◌++◌, ◌∷◌, ◌<◌, ◌≤◌, [], false, filter, length, map, not, All, IfOk, OnOk, OnErr, option_copied};
ghost use Rattle.std.specs.List.{list_any};
ghost use Rattle.node_state.specs.declared.reservation_record.Reservation.{Reservation as OneReservation};
ghost use Rattle.node_state.specs.Moving.{reservation_moved, row_moved, was_in};
ghost use Rattle.node_state.specs.Reservations as spec;

use crate::reservation_record::{Reservation, crosses};
use plain_data::NodePlaces;
use small_texts::memory_error::Memory;
use small_texts::name::Name;
use std::alloc::Global;
use std::marker::Model;

// How many reservations there may be (own).
const MOST: usize = 256;

/// The reservations, in the order in which they were made. No two have one name, and no two have a node at one time. A
/// contract sees the list. "RESERVATIONS" in scontrol(1).
#[derive(Drop)]
pub struct Reservations {
    records: Vec<Reservation>,
}

impl Model for Reservations {
    ghost use Rattle.std.specs.Prelude.{List};
    ghost use Rattle.node_state.specs.declared.reservation_record.Reservation.{Reservation};
    ghost use Rattle.node_state.specs.Reservations.{AreReservations};

    ghost Value = { List Reservation };

    ghost view = { λ reservations. reservations.records.items };

    ghost invariant = { λ reservations. AreReservations reservations.records.items };
}

impl Reservations {
    /// None. It takes no memory.
    pub fn new(alloc: Global) -> Reservations
        ensures { result ≡ [] }
    {
        Reservations {
            records: Vec::new(alloc),
        }
    }

    /// The reservations in their order, in constant time.
    pub fn records(&self) -> &[Reservation]
        ensures value { result.now ≡ self.now }
        ensures kept { spec.AreReservations self.now }
    {
        self.records.as_slice()
    }

    /// The reservation of this name. Linear in the reservations.
    pub fn find(&self, name: &Name) -> Option<&Reservation>
        ensures { option_copied result ≡ spec.reservation_named name.now self.now }
    {
        self.records.iter().find(|one| name.is(&one.name))
    }

    /// Whether there can't be one of this name and time more: the name is taken, the time isn't after its start and
    /// after now, or there are 256 (own). Linear in the reservations.
    pub fn refuses(&self, name: &Name, start: u64, end: u64, now: u64) -> bool
        ensures { result ≡ spec.is_refused now name.now start end self.now }
    {
        self.find(name).is_some() || end <= start || end <= now || MOST <= self.records.len()
    }

    /// Whether one of them has one of these nodes at this time. Linear in the reservations; nodes are compared word by
    /// word.
    pub fn overlaps(&self, nodes: &NodePlaces, start: u64, end: u64) -> bool
        ensures { result ≡ list_any (spec.overlaps nodes.now start end) self.now }
    {
        self.records.iter().any(|one| crosses(one, start, end) && shares(&one.nodes, nodes))
    }

    /// Adds a reservation that isn't refused and overlaps none. Want of memory leaves them as they were.
    pub fn add(&mut self, wanted: Reservation) -> Result<(), Memory>
        requires fits { spec.Fits self.old wanted }
        ensures ok { OnOk result (self.new ≡ self.old ++ wanted ∷ []) }
        ensures err { OnErr result (self.new ≡ self.old) }
    {
        self.records.reserve(1)?;
        self.records.push(wanted).unwrap();
        Ok(())
    }

    /// Takes back the reservation of this name. Linear in the reservations; it takes no memory.
    pub fn delete(&mut self, name: &Name)
        ensures { self.new ≡ filter (λ one. not (spec.is_named name.now one)) self.old }
    {
        self.records.retain(|one| !name.is(&one.name));
    }

    /// Their nodes are at other places now: for each place its old one is told, if its node was there. Linear in the
    /// reservations, and for each in the places; it takes no memory.
    pub fn move_nodes(&mut self, origins: &[Option<u32>])
        requires { length origins.now ≤ 1024 }
        ensures { self.new ≡ map (reservation_moved origins.now) self.old }
    {
        move_all(self.records.as_mut_slice(), origins);
    }

    /// Drops those that are over. Linear in the reservations; it takes no memory.
    pub fn drop_ended(&mut self, now: u64)
        ensures { self.new ≡ spec.lasting now self.old }
    {
        self.records.retain(|one| now < one.end.get());
    }
}

// Whether the old place, if there was one, is in the row.
fn was_in(row: &NodePlaces, origin: Option<u32>) -> bool
    ensures { result ≡ was_in row.now origin }
{
    match origin {
        Some(place) => row.contains(place),
        None => false,
    }
}

// The new places of the nodes of a row.
fn row_moved(origins: &[Option<u32>], row: &NodePlaces) -> NodePlaces
    requires { length origins.now ≤ 1024 }
    ensures { result ≡ row_moved origins.now row.now }
{
    let mut moved = NodePlaces::none();
    for (place, origin) in origins.iter().enumerate() {
        if was_in(row, *origin) {
            moved.insert(place as u32);
        }
    }
    moved
}

fn move_all(reservations: &mut [Reservation], origins: &[Option<u32>])
    requires { length origins.now ≤ 1024 }
    ensures { reservations.new ≡ map (reservation_moved origins.now) reservations.old }
{
    for reservation in reservations.iter_mut() {
        reservation.nodes = row_moved(origins, &reservation.nodes);
    }
}

// Whether two rows of nodes have one in common: something is left of the one without what it has apart from the other.
fn shares(one: &NodePlaces, other: &NodePlaces) -> bool
    ensures { result ≡ spec.shares one.now other.now }
{
    let mut apart = one.copy();
    apart.remove_all(other);
    let mut common = one.copy();
    common.remove_all(&apart);
    !common.is_empty()
}
