//! What operators ask of nodes, of partitions, and of the controller itself.

ghost use Rattle.std.specs.Prelude.{◌≡◌, ◌<◌, Some, length, slice_get};
ghost use Rattle.ctl_state.specs.State.{state_of};
ghost use Rattle.ctl_state.specs.Index.{IsIndexed};
ghost use Rattle.ctl_state.specs.Soundness.{IsSound};
ghost use Rattle.ctl_state.specs.Refusals.{first_refusal, unless_refused};
ghost use Rattle.ctl_state.specs.Verdicts.{Makes};
ghost use Rattle.reply_data.specs.declared.reply.Reply.TheVariants.{Done};
ghost use Rattle.ctl_nodes.specs.Updating;
ghost use Rattle.ctl_core.specs.Answering.{Answers};
ghost use Rattle.ctl_core.specs.Operating;
ghost use Rattle.ctl_core.specs.Step.{unless_full};
ghost use Rattle.node_state.specs.Partitions.{place_meant};

use crate::answering::{done, idle, refused};
use crate::reply::Answered;
use ctl_nodes::{changes_any, refusal_of, update};
use ctl_state::cluster::Cluster;
use node_state::partitions::Partitions;
use plain_data::conf::PartState;
use plain_data::items::Items;
use reply_data::refusal::Refusal;
use request_data::request::NodeOrder;
use small_texts::name::Name;

fn same_state(one: PartState, other: PartState) -> bool
    ensures { result ≡ Operating.same_state one other }
{
    match (one, other) {
        (PartState::Up, PartState::Up)
        | (PartState::Down, PartState::Down)
        | (PartState::Drain, PartState::Drain)
        | (PartState::Inactive, PartState::Inactive) => true,
        _ => false,
    }
}

// Whether the partition at a place, if there is one, is in this state.
fn is_in_state(partitions: &Partitions, place: u32, state: PartState) -> bool
    ensures { result ≡ Operating.is_in_state state (slice_get partitions.now place) }
{
    match partitions.at(place) {
        Some(partition) => same_state(partition.state, state),
        None => true,
    }
}

// Gives the partition at a place another state.
fn set_partition(cluster: &mut Cluster, place: u32, state: PartState, room: bool) -> Answered
    requires there { place < length cluster.old.partitions }
    requires indexed { IsIndexed cluster.old }
    ensures made { Answers (state_of cluster.old) (state_of cluster.new)
        (unless_full room (Operating.partition_made (state_of cluster.old) state (Some place))) result }
    ensures indexed { IsIndexed cluster.new }
{
    if is_in_state(&cluster.partitions, place, state) {
        return idle();
    }
    if !room {
        return refused(Refusal::HistoryFull);
    }
    let _other = cluster.partitions.set_state(place, state);
    done()
}

/// Another state of a partition, where the history has room for it or not. Linear in the partitions; it takes no
/// memory.
pub(crate) fn update_partition(
    cluster: &mut Cluster,
    user: &Name,
    name: &Name,
    state: PartState,
    room: bool,
) -> Answered
    requires { IsIndexed cluster.old }
    ensures made { Answers (state_of cluster.old) (state_of cluster.new)
        (unless_refused (first_refusal (Operating.partition_refusals (state_of cluster.old) user.now name.now))
        (unless_full room (Operating.partition_made (state_of cluster.old) state
        (place_meant (Some name.now) cluster.old.partitions)))) result }
    ensures indexed { IsIndexed cluster.new }
{
    if !cluster.is_privileged(user) {
        return refused(Refusal::AccessDenied);
    }
    match cluster.partitions.find(Some(name)) {
        Some(place) => set_partition(cluster, place, state, room),
        None => refused(Refusal::InvalidPartition),
    }
}

/// What an operator says of nodes, at its raised moment, where the history has room for it or not. It takes no memory.
pub(crate) fn update_nodes(
    cluster: &mut Cluster,
    moment: u64,
    user: &Name,
    nodes: &Items<Name>,
    state: NodeOrder,
    room: bool,
) -> Answered
    requires sound { IsSound (state_of cluster.old) }
    requires indexed { IsIndexed cluster.old }
    ensures made { Answers (state_of cluster.old) (state_of cluster.new)
        (unless_refused (first_refusal (Updating.update_refusals (state_of cluster.old) user.now nodes.now))
        (unless_full room (Updating.update_made (state_of cluster.old) moment nodes.now state))) result }
    ensures indexed { IsIndexed cluster.new }
{
    if let Some(refusal) = refusal_of(cluster, user, nodes) {
        return refused(refusal);
    }
    if !changes_any(cluster, nodes, state) {
        return idle();
    }
    if !room {
        return refused(Refusal::HistoryFull);
    }
    update(cluster, moment, nodes, state);
    done()
}

/// A shutdown. It takes no memory.
pub(crate) fn shut_down(cluster: &mut Cluster, user: &Name) -> Answered
    requires { IsIndexed cluster.old }
    ensures made { Answers (state_of cluster.old) (state_of cluster.new)
        (unless_refused (first_refusal (Operating.shutdown_refusals (state_of cluster.old) user.now))
        (Makes Done (Operating.shut (state_of cluster.old)))) result }
    ensures indexed { IsIndexed cluster.new }
{
    if !cluster.is_privileged(user) {
        return refused(Refusal::AccessDenied);
    }
    cluster.is_shut = true;
    done()
}
