//! What operators ask of reservations.

ghost use Rattle.std.specs.Prelude.{◌≡◌, ◌≤◌, IfOk, OnErr};
ghost use Rattle.ctl_state.specs.State.{state_of, last_moment};
ghost use Rattle.ctl_state.specs.Index.{IsIndexed};
ghost use Rattle.ctl_state.specs.Soundness.{IsSound};
ghost use Rattle.ctl_state.specs.Refusals.{first_refusal, unless_refused};
ghost use Rattle.ctl_nodes.specs.Reserving;
ghost use Rattle.ctl_core.specs.Answering.{Answers};
ghost use Rattle.ctl_core.specs.Step.{unless_full};

use crate::answering::{done, refused};
use crate::reply::Answered;
use ctl_nodes::{create, delete, refusal_of_creation, refusal_of_deletion};
use ctl_state::cluster::Cluster;
use reply_data::refusal::Refusal;
use request_data::reservation::ReservationDesc;
use small_texts::memory_error::Memory;
use small_texts::name::Name;

/// A reservation more, at its raised moment, where the history has room for it or not. Linear in the names of its nodes,
/// in the reservations, and in the jobs and their parts.
pub(crate) fn create_reservation(
    cluster: &mut Cluster,
    moment: u64,
    user: &Name,
    desc: &ReservationDesc,
    room: bool,
) -> Result<Answered, Memory>
    requires sound { IsSound (state_of cluster.old) }
    requires raised { cluster.old.moment ≤ moment }
    requires in_time { moment ≤ last_moment }
    requires indexed { IsIndexed cluster.old }
    ensures ok { IfOk result (Answers (state_of cluster.old) (state_of cluster.new)
        (unless_refused (first_refusal (Reserving.create_refusals (state_of cluster.old) moment user.now desc.now))
        (unless_full room (Reserving.create_made (state_of cluster.old) desc.now)))) }
    ensures err { OnErr result (state_of cluster.new ≡ state_of cluster.old) }
    ensures indexed { IsIndexed cluster.new }
{
    if let Some(refusal) = refusal_of_creation(cluster, moment, user, desc) {
        return Ok(refused(refusal));
    }
    if !room {
        return Ok(refused(Refusal::HistoryFull));
    }
    create(cluster, desc)?;
    Ok(done())
}

/// A reservation taken back, where the history has room for it or not. Linear in the reservations; it takes no memory.
pub(crate) fn delete_reservation(
    cluster: &mut Cluster,
    user: &Name,
    name: &Name,
    room: bool,
) -> Answered
    requires sound { IsSound (state_of cluster.old) }
    requires indexed { IsIndexed cluster.old }
    ensures made { Answers (state_of cluster.old) (state_of cluster.new)
        (unless_refused (first_refusal (Reserving.delete_refusals (state_of cluster.old) user.now name.now))
        (unless_full room (Reserving.delete_made (state_of cluster.old) name.now))) result }
    ensures indexed { IsIndexed cluster.new }
{
    if let Some(refusal) = refusal_of_deletion(cluster, user, name) {
        return refused(refusal);
    }
    if !room {
        return refused(Refusal::HistoryFull);
    }
    delete(cluster, name);
    done()
}
