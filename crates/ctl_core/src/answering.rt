//! One step: a request is judged, and where it is accepted the cluster changes and bears its moment.

ghost use Rattle.std.specs.Prelude.{◌≡◌, ◌+◌, ◌^◌, ◌<◌, ◌≤◌, IfOk, OnOk, OnErr, if◌then◌else◌, Some, None, option_copied, true};
ghost use Rattle.ctl_state.specs.State.{state_of, last_moment};
ghost use Rattle.ctl_state.specs.Index.{IsIndexed};
ghost use Rattle.ctl_state.specs.Soundness.{IsSound};
ghost use Rattle.ctl_core.specs.Answering.{Answers, HasPlanned, IsCounted};
ghost use Rattle.ctl_core.specs.Sizes.{has_room};
ghost use Rattle.ctl_core.specs.Step.{reply_of, state_after, kept_after, entered, is_closed, is_entered, nearest, raised, takes_memory, worked};

use crate::changing::{cancel_jobs, change_job, change_jobs};
use crate::entered::Entered;
use crate::laws::a_step_keeps_all_sound;
use crate::operating::{shut_down, update_nodes, update_partition};
use crate::passing::pass;
use crate::ranges::in_range;
use crate::reconfiguring::reconfigure;
use crate::reply::{Answered, Decided};
use crate::reporting::report;
use crate::reserving::{create_reservation, delete_reservation};
use crate::showing::show;
use crate::sizes::room_for;
use crate::submitting::submit;
use backfill_planner::Planned;
use ctl_jobs::Action;
use ctl_state::cluster::Cluster;
use reply_data::refusal::Refusal;
use reply_data::reply::Reply;
use request_data::request::Request;
use resource_profile::Steps;
use small_texts::memory_error::Memory;
use small_texts::name::Name;
use std::alloc::Global;

pub(crate) const LAST_MOMENT: u64 = 250_000_000_000;

// The answer at a moment; an entry makes the cluster bear it, and its size.
fn stamp(cluster: &mut Cluster, moment: u64, size: u64, answered: Answered) -> Decided
    requires entered { answered.entered ≡ (if is_entered answered.reply then Some answered.reply else None) }
    requires room { cluster.old.size + size < 2 ^ 64 }
    ensures reply { result.reply ≡ answered.reply }
    ensures entered { result.entered ≡ answered.entered }
    ensures moment { result.moment ≡ moment }
    ensures after { state_of cluster.new
        ≡ (if is_entered answered.reply then entered moment size (state_of cluster.old) else state_of cluster.old) }
    ensures indexed { IsIndexed cluster.old → IsIndexed cluster.new }
{
    if answered.entered.is_some() {
        cluster.moment = moment;
        cluster.size += size;
    }
    Decided {
        reply: answered.reply,
        entered: answered.entered,
        moment,
    }
}

// What a request comes to at its raised moment. A pass is made over the hint, or else over the kept plan.
fn work<L>(
    alloc: Global,
    cluster: &mut Cluster,
    kept: &mut Option<Planned>,
    hint: Option<&Planned>,
    moment: u64,
    user: &Name,
    request: &Request,
    room: bool,
    steps: &mut Steps<L>,
) -> Result<Answered, Memory>
    requires sound { IsSound (state_of cluster.old) }
    requires raised { cluster.old.moment ≤ moment }
    requires in_time { moment ≤ last_moment }
    requires room { room ≡ has_room (state_of cluster.old) request.now }
    requires indexed { IsIndexed cluster.old }
    ensures ok { IfOk result (Answers (state_of cluster.old) (state_of cluster.new)
        (worked (state_of cluster.old) moment user.now request.now)) }
    ensures err { OnErr result (state_of cluster.new ≡ state_of cluster.old) }
    ensures memory { OnErr result (takes_memory request.now ≡ true) }
    ensures planned { HasPlanned request.now (state_of cluster.old) moment user.now
        (nearest (option_copied hint.entry) kept.old) kept.old kept.new steps.old steps.new result }
    ensures indexed { IsIndexed cluster.new }
{
    match request {
        Request::Submit(desc) => submit(alloc, cluster, moment, user, desc, room),
        Request::Cancel(targets) => Ok(cancel_jobs(cluster, moment, user, targets, room)),
        Request::Hold {
            targets,
            user: owned,
        } => {
            let action = Action::Hold { for_owner: *owned };
            Ok(change_jobs(cluster, moment, user, &action, targets.as_slice(), room))
        }
        Request::Release { targets } => {
            let action = Action::Release;
            Ok(change_jobs(cluster, moment, user, &action, targets.as_slice(), room))
        }
        Request::Requeue { target } => {
            Ok(change_job(cluster, moment, user, &Action::Requeue, *target, room))
        }
        Request::UpdateJob {
            target,
            limit,
            nice,
        } => {
            let action = Action::Update {
                limit: *limit,
                nice: *nice,
            };
            Ok(change_job(cluster, moment, user, &action, *target, room))
        }
        Request::UpdateNode { nodes, state } => {
            Ok(update_nodes(cluster, moment, user, nodes, *state, room))
        }
        Request::UpdatePartition { name, state } => {
            Ok(update_partition(cluster, user, name, *state, room))
        }
        Request::CreateReservation(desc) => {
            create_reservation(cluster, moment, user, desc, room)
        }
        Request::DeleteReservation { name } => Ok(delete_reservation(cluster, user, name, room)),
        Request::Shutdown => Ok(shut_down(cluster, user)),
        Request::Reconfigure { conf, .. } => {
            reconfigure(alloc, cluster, moment, user, conf, room)
        }
        Request::Report(told) => report(alloc, cluster, moment, user, told, room),
        Request::Pass => pass(alloc, cluster, kept, hint, moment, user, room, steps),
        Request::Show(query) => show(alloc, cluster, moment, user, query),
    }
}

// Whether a controller that was shut down refuses the request.
fn is_closed(cluster: &Cluster, request: &Request) -> bool
    ensures { result ≡ is_closed (state_of cluster.now) request.now }
{
    match request {
        Request::Show(_) => false,
        _ => cluster.is_shut,
    }
}

/// The answer to a request that is done, and tells nothing.
pub(crate) fn done() -> Answered
    ensures reply { result.reply ≡ Reply.Done }
    ensures entered { result.entered ≡ Some Reply.Done }
{
    Answered {
        reply: Reply::Done,
        entered: Some(Entered::done()),
    }
}

/// The answer to a request that would change nothing, which makes no entry.
pub(crate) fn idle() -> Answered
    ensures reply { result.reply ≡ Reply.Idle }
    ensures entered { result.entered ≡ None }
{
    Answered {
        reply: Reply::Idle,
        entered: None,
    }
}

/// The answer to a refused request, which makes no entry.
pub(crate) fn refused(refusal: Refusal) -> Answered
    ensures reply { result.reply ≡ Reply.Refused refusal }
    ensures entered { result.entered ≡ None }
{
    Answered {
        reply: Reply::Refused(refusal),
        entered: None,
    }
}

// Answers a request. A pass counts its steps, and its plan is kept unless it is refused.
fn answer<L>(
    alloc: Global,
    cluster: &mut Cluster,
    kept: &mut Option<Planned>,
    hint: Option<&Planned>,
    now: u64,
    user: &Name,
    request: &Request,
    steps: &mut Steps<L>,
) -> Result<Decided, Memory>
    requires sound { IsSound (state_of cluster.old) }
    requires indexed { IsIndexed cluster.old }
    ensures reply { IfOk result (λ decided. decided.reply ≡ reply_of (state_of cluster.old) now user.now request.now) }
    ensures entered { IfOk result (λ decided.
        decided.entered ≡ (if is_entered decided.reply then Some decided.reply else None)) }
    ensures moment { IfOk result (λ decided. decided.moment ≡ raised (state_of cluster.old) now) }
    ensures after { OnOk result (state_of cluster.new ≡ state_after (state_of cluster.old) now user.now request.now) }
    ensures err { OnErr result (state_of cluster.new ≡ state_of cluster.old) }
    ensures memory { OnErr result (takes_memory request.now ≡ true) }
    ensures kept { OnOk result (kept.new ≡ kept_after (state_of cluster.old) kept.old now user.now request.now) }
    ensures kept_err { OnErr result (kept.new ≡ kept.old) }
    ensures counted { IsCounted request.now (state_of cluster.old) now user.now
        (nearest (option_copied hint.entry) kept.old) steps.old steps.new }
    ensures indexed { IsIndexed cluster.new }
{
    let moment = cluster.moment.max(now);
    if now > LAST_MOMENT {
        return Ok(stamp(cluster, moment, 0, refused(Refusal::MomentTooLarge)));
    }
    if is_closed(cluster, request) {
        return Ok(stamp(cluster, moment, 0, refused(Refusal::ShuttingDown)));
    }
    let size = room_for(cluster, request);
    let answered = work(
        alloc,
        cluster,
        kept,
        hint,
        moment,
        user,
        request,
        size.is_some(),
        steps,
    )?;
    Ok(stamp(cluster, moment, size.unwrap_or(0), answered))
}

/// Answers a request, and keeps all sound and the index right. A pass is made over the hint, or else over the plan that
/// is kept; its own is kept then, unless it is refused. It counts its steps; nothing else does.
pub(crate) fn ask<L>(
    alloc: Global,
    cluster: &mut Cluster,
    kept: &mut Option<Planned>,
    hint: Option<&Planned>,
    now: u64,
    user: &Name,
    request: &Request,
    steps: &mut Steps<L>,
) -> Result<Decided, Memory>
    requires sound { IsSound (state_of cluster.old) }
    requires indexed { IsIndexed cluster.old }
    ensures reply { IfOk result (λ decided. decided.reply ≡ reply_of (state_of cluster.old) now user.now request.now) }
    ensures entered { IfOk result (λ decided.
        decided.entered ≡ (if is_entered decided.reply then Some decided.reply else None)) }
    ensures moment { IfOk result (λ decided. decided.moment ≡ raised (state_of cluster.old) now) }
    ensures after { OnOk result (state_of cluster.new ≡ state_after (state_of cluster.old) now user.now request.now) }
    ensures err { OnErr result (state_of cluster.new ≡ state_of cluster.old) }
    ensures memory { OnErr result (takes_memory request.now ≡ true) }
    ensures kept { OnOk result (kept.new ≡ kept_after (state_of cluster.old) kept.old now user.now request.now) }
    ensures kept_err { OnErr result (kept.new ≡ kept.old) }
    ensures counted { IsCounted request.now (state_of cluster.old) now user.now
        (nearest (option_copied hint.entry) kept.old) steps.old steps.new }
    ensures sound { IsSound (state_of cluster.new) }
    ensures indexed { IsIndexed cluster.new }
{
    a_step_keeps_all_sound();
    in_range(request);
    answer(alloc, cluster, kept, hint, now, user, request, steps)
}
