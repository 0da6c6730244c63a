//! What users do to jobs.

ghost use Rattle.std.specs.Prelude.{◌≡◌, [], ◌∷◌};
ghost use Rattle.ctl_state.specs.State.{state_of};
ghost use Rattle.ctl_state.specs.Index.{IsIndexed};
ghost use Rattle.ctl_state.specs.Soundness.{IsSound};
ghost use Rattle.ctl_state.specs.Refusals.{first_refusal, unless_refused};
ghost use Rattle.ctl_jobs.specs.Changing;
ghost use Rattle.ctl_core.specs.Answering.{Answers};
ghost use Rattle.ctl_core.specs.Step.{unless_full};

use crate::answering::{done, idle, refused};
use crate::reply::Answered;
use ctl_jobs::{
    Action, change, change_owned, changes_any, changes_owned, refusal_of, refusal_of_owner,
};
use ctl_state::cluster::Cluster;
use reply_data::refusal::Refusal;
use request_data::target::{Target, Targets};
use small_texts::name::Name;

/// Something done to the jobs that the targets name, at its raised moment, where the history has room for it or not. It
/// takes no memory.
pub(crate) fn change_jobs(
    cluster: &mut Cluster,
    moment: u64,
    user: &Name,
    action: &Action,
    targets: &[Target],
    room: bool,
) -> Answered
    requires sound { IsSound (state_of cluster.old) }
    requires indexed { IsIndexed cluster.old }
    ensures made { Answers (state_of cluster.old) (state_of cluster.new)
        (unless_refused (first_refusal (Changing.refusals (state_of cluster.old) user.now action.now targets.now))
        (unless_full room (Changing.change_made (state_of cluster.old) moment user.now action.now
        (Changing.are_naming targets.now)))) result }
    ensures indexed { IsIndexed cluster.new }
{
    if let Some(refusal) = refusal_of(cluster, user, action, targets) {
        return refused(refusal);
    }
    if !changes_any(cluster, user, action, targets) {
        return idle();
    }
    if !room {
        return refused(Refusal::HistoryFull);
    }
    change(cluster, moment, user, action, targets);
    done()
}

/// Something done to the jobs that one target names.
pub(crate) fn change_job(
    cluster: &mut Cluster,
    moment: u64,
    user: &Name,
    action: &Action,
    target: Target,
    room: bool,
) -> Answered
    requires sound { IsSound (state_of cluster.old) }
    requires indexed { IsIndexed cluster.old }
    ensures made { Answers (state_of cluster.old) (state_of cluster.new)
        (unless_refused (first_refusal (Changing.refusals (state_of cluster.old) user.now action.now (target ∷ [])))
        (unless_full room (Changing.change_made (state_of cluster.old) moment user.now action.now
        (Changing.are_naming (target ∷ []))))) result }
    ensures indexed { IsIndexed cluster.new }
{
    change_jobs(cluster, moment, user, action, &[target], room)
}

// Something done to all jobs of an owner.
fn change_jobs_of(
    cluster: &mut Cluster,
    moment: u64,
    user: &Name,
    action: &Action,
    owner: &Name,
    room: bool,
) -> Answered
    requires sound { IsSound (state_of cluster.old) }
    requires indexed { IsIndexed cluster.old }
    ensures made { Answers (state_of cluster.old) (state_of cluster.new)
        (unless_refused (first_refusal (Changing.owner_refusals (state_of cluster.old) user.now owner.now))
        (unless_full room (Changing.change_made (state_of cluster.old) moment user.now action.now
        (Changing.is_owned owner.now)))) result }
    ensures indexed { IsIndexed cluster.new }
{
    if let Some(refusal) = refusal_of_owner(cluster, user, owner) {
        return refused(refusal);
    }
    if !changes_owned(cluster, user, action, owner) {
        return idle();
    }
    if !room {
        return refused(Refusal::HistoryFull);
    }
    change_owned(cluster, moment, user, action, owner);
    done()
}

/// Cancelling, at its raised moment, where the history has room for it or not. It takes no memory.
pub(crate) fn cancel_jobs(
    cluster: &mut Cluster,
    moment: u64,
    user: &Name,
    targets: &Targets,
    room: bool,
) -> Answered
    requires sound { IsSound (state_of cluster.old) }
    requires indexed { IsIndexed cluster.old }
    ensures made { Answers (state_of cluster.old) (state_of cluster.new)
        (unless_refused (first_refusal (Changing.cancel_refusals (state_of cluster.old) user.now targets.now))
        (unless_full room (Changing.change_made (state_of cluster.old) moment user.now Action.Cancel
        (Changing.are_meant targets.now)))) result }
    ensures indexed { IsIndexed cluster.new }
{
    let action = Action::Cancel;
    match targets {
        Targets::List(list) => change_jobs(cluster, moment, user, &action, list.as_slice(), room),
        Targets::User(owner) => change_jobs_of(cluster, moment, user, &action, owner, room),
    }
}
