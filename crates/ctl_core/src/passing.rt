//! Passes.

ghost use Rattle.std.specs.Prelude.{◌≡◌, ◌≤◌, IfOk, IfSome, OnErr, if◌then◌else◌, Some, option_copied};
ghost use Rattle.resource_profile.specs.Counts.{IsTickedUpTo};
ghost use Rattle.ctl_state.specs.State.{state_of, last_moment};
ghost use Rattle.ctl_state.specs.Index.{IsIndexed};
ghost use Rattle.ctl_state.specs.Soundness.{IsSound};
ghost use Rattle.ctl_state.specs.Refusals.{first_refusal, unless_refused, is_privileged};
ghost use Rattle.ctl_pass.specs.Passing.{pass_refusals};
ghost use Rattle.ctl_node_side.specs.Passes.{IsPassedOver, made_by_pass, pass_input, planned_by_pass};
ghost use Rattle.ctl_core.specs.Answering.{Answers};
ghost use Rattle.ctl_core.specs.Step.{is_made, nearest, unless_full};

use crate::answering::{idle, refused};
use crate::entered::Entered;
use crate::reply::Answered;
use backfill_planner::Planned;
use ctl_node_side::{PassMade, PassOutcome};
use ctl_pass::refusal_of;
use ctl_state::cluster::Cluster;
use reply_data::refusal::Refusal;
use reply_data::reply::Reply;
use resource_profile::Steps;
use small_texts::memory_error::Memory;
use small_texts::name::Name;
use std::alloc::Global;

fn passed(ended: u32, started: u32, planned: u32) -> Answered
    ensures reply { result.reply ≡ Reply.Passed ended started planned }
    ensures entered { result.entered ≡ Some result.reply }
{
    Answered {
        reply: Reply::Passed {
            ended,
            started,
            planned,
        },
        entered: Some(Entered::passed(ended, started, planned)),
    }
}

// The hint, or else the plan that is kept.
fn nearest<'a>(hint: Option<&'a Planned>, kept: Option<&'a Planned>) -> Option<&'a Planned>
    ensures { option_copied result ≡ nearest (option_copied hint.entry) (option_copied kept.entry) }
{
    match hint {
        Some(hint) => Some(hint),
        None => kept,
    }
}

// Keeps a plan in the place of the one that was kept, where there is one.
fn keep(kept: &mut Option<Planned>, plan: Option<Planned>)
    ensures { kept.new ≡ nearest plan kept.old }
{
    if let Some(plan) = plan {
        *kept = Some(plan);
    }
}

/// A pass at its raised moment, where the history has room for it or not; it counts its steps in each case. Its
/// plan is made over the hint, or else over the kept one, and kept in its place unless the pass is refused.
pub(crate) fn pass<L>(
    alloc: Global,
    cluster: &mut Cluster,
    kept: &mut Option<Planned>,
    hint: Option<&Planned>,
    moment: u64,
    user: &Name,
    room: bool,
    steps: &mut Steps<L>,
) -> Result<Answered, Memory>
    requires sound { IsSound (state_of cluster.old) }
    requires raised { cluster.old.moment ≤ moment }
    requires in_time { moment ≤ last_moment }
    requires indexed { IsIndexed cluster.old }
    ensures ok { IfOk result (Answers (state_of cluster.old) (state_of cluster.new)
        (unless_refused (first_refusal (pass_refusals (state_of cluster.old) user.now))
        (unless_full room (made_by_pass (state_of cluster.old) moment)))) }
    ensures err { OnErr result (state_of cluster.new ≡ state_of cluster.old) }
    ensures kept { IfOk result (λ answered. kept.new
        ≡ (if is_made answered.reply then Some (pass_input (state_of cluster.old) moment) else kept.old)) }
    ensures kept_err { OnErr result (kept.new ≡ kept.old) }
    ensures steps { IsTickedUpTo
        (if is_privileged (state_of cluster.old) user.now then planned_by_pass (state_of cluster.old) moment else 0)
        steps.old steps.new }
    ensures over { IfSome (nearest (option_copied hint.entry) kept.old) (λ old.
        IsPassedOver old (state_of cluster.old) moment steps.old steps.new) }
    ensures indexed { IsIndexed cluster.new }
{
    if let Some(refusal) = refusal_of(cluster, user) {
        return Ok(refused(refusal));
    }
    let older = nearest(hint, kept.as_ref());
    let PassMade { outcome, plan } = ctl_node_side::pass(
        alloc, cluster, older, moment, room, steps,
    )?;
    keep(kept, plan);
    Ok(match outcome {
        PassOutcome::Idle => idle(),
        PassOutcome::Full => refused(Refusal::HistoryFull),
        PassOutcome::Passed {
            ended,
            started,
            planned,
        } => passed(ended, started, planned),
    })
}
