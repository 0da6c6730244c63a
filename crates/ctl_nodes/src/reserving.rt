//! What operators say of reservations: why it is refused, and what it makes.

ghost use Rattle.std.specs.Prelude.{◌≡◌, ◌≤◌, IfNone, IfOk, OnErr, OnOk, is_none};
ghost use Rattle.std.specs.List.{list_any};
ghost use Rattle.node_state.specs.Nodes.{place_named};
ghost use Rattle.node_state.specs.Reservations.{Fits};
ghost use Rattle.ctl_state.specs.Index.{IsIndexed};
ghost use Rattle.ctl_state.specs.Refusals.{first_refusal};
ghost use Rattle.ctl_state.specs.Soundness.{IsSound};
ghost use Rattle.ctl_state.specs.State.{state_of, last_moment};
ghost use Rattle.ctl_nodes.specs.Reserving;
ghost use Rattle.ctl_nodes.specs.Reserving.{create_refusals, created, delete_refusals, deleted, reservation_of};

use crate::holding::are_held;
use crate::places::places_among;
use ctl_state::cluster::Cluster;
use node_state::nodes::Nodes;
use node_state::reservation_record::Reservation;
use plain_data::items::Items;
use plain_data::ranged::LongRanged;
use reply_data::refusal::Refusal;
use request_data::reservation::ReservationDesc;
use small_texts::memory_error::Memory;
use small_texts::name::Name;

// Whether one of the names is no node's.
fn has_stranger(nodes: &Nodes, names: &Items<Name>) -> bool
    ensures { result ≡ list_any (λ name. is_none (place_named name nodes.now.records)) names.now }
{
    names.iter().any(|name| nodes.find(name).is_none())
}

// Whether another reservation, or a job, has some of what is asked for.
fn is_taken(cluster: &Cluster, now: u64, desc: &ReservationDesc) -> bool
    requires sound { IsSound (state_of cluster.now) }
    requires in_time { now ≤ last_moment }
    ensures { result ≡ Reserving.is_taken (state_of cluster.now) now
        (reservation_of cluster.now.nodes.records desc.now) }
{
    let (start, end) = (desc.start.get(), desc.end.get());
    let nodes = places_among(&cluster.nodes, desc.nodes.as_slice());
    cluster.reservations.overlaps(&nodes, start, end)
        || are_held(now, &nodes, start, end, cluster.jobs.records())
}

/// Why a reservation isn't made at this moment, if it isn't. Linear in the names of its nodes, in the reservations, and
/// in the jobs and their parts; it takes no memory.
pub fn refusal_of_creation(
    cluster: &Cluster,
    now: u64,
    user: &Name,
    desc: &ReservationDesc,
) -> Option<Refusal>
    requires sound { IsSound (state_of cluster.now) }
    requires in_time { now ≤ last_moment }
    ensures value { result ≡ first_refusal (create_refusals (state_of cluster.now) now user.now desc.now) }
    ensures fits { IfNone result (Fits cluster.now.reservations (reservation_of cluster.now.nodes.records desc.now)) }
{
    if !cluster.is_privileged(user) {
        return Some(Refusal::AccessDenied);
    }
    if cluster
        .reservations
        .refuses(&desc.name, desc.start.get(), desc.end.get(), now)
    {
        return Some(Refusal::InvalidReservation);
    }
    if has_stranger(&cluster.nodes, &desc.nodes) {
        return Some(Refusal::UnknownNode);
    }
    if is_taken(cluster, now, desc) {
        return Some(Refusal::ReservationOverlap);
    }
    None
}

// The reservation that is asked for.
fn reservation_of(nodes: &Nodes, desc: &ReservationDesc) -> Result<Reservation, Memory>
    ensures { IfOk result (λ wanted. wanted ≡ Reserving.reservation_of nodes.now.records desc.now) }
{
    Ok(Reservation {
        name: desc.name.copy()?,
        start: LongRanged::new(desc.start.get()),
        end: LongRanged::new(desc.end.get()),
        nodes: places_among(nodes, desc.nodes.as_slice()),
        names: desc.nodes.copy()?,
        users: desc.users.copy()?,
        accounts: desc.accounts.copy()?,
    })
}

/// Makes the reservation, which isn't refused. Linear in its names; want of memory leaves all as it was. "create" in
/// scontrol(1).
pub fn create(cluster: &mut Cluster, desc: &ReservationDesc) -> Result<(), Memory>
    requires fits { Fits cluster.old.reservations (reservation_of cluster.old.nodes.records desc.now) }
    ensures ok { OnOk result (state_of cluster.new ≡ created (state_of cluster.old) desc.now) }
    ensures err { OnErr result (state_of cluster.new ≡ state_of cluster.old) }
    ensures indexed { IsIndexed cluster.old → IsIndexed cluster.new }
{
    let wanted = reservation_of(&cluster.nodes, desc)?;
    cluster.reservations.add(wanted)
}

/// Why the reservation of this name isn't taken back, if it isn't. Linear in the reservations; it takes no memory.
pub fn refusal_of_deletion(cluster: &Cluster, user: &Name, name: &Name) -> Option<Refusal>
    ensures { result ≡ first_refusal (delete_refusals (state_of cluster.now) user.now name.now) }
{
    if !cluster.is_privileged(user) {
        return Some(Refusal::AccessDenied);
    }
    if cluster.reservations.find(name).is_none() {
        return Some(Refusal::InvalidReservation);
    }
    None
}

/// Takes back the reservation of this name. Linear in the reservations; it takes no memory. "delete" in scontrol(1).
pub fn delete(cluster: &mut Cluster, name: &Name)
    ensures after { state_of cluster.new ≡ deleted (state_of cluster.old) name.now }
    ensures indexed { IsIndexed cluster.old → IsIndexed cluster.new }
{
    cluster.reservations.delete(name);
}
