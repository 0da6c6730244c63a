//! What holds of every step. A law is the contract of a function that does nothing.

ghost use Rattle.std.specs.Prelude.{◌≡◌, ◌≢◌, ℕ, Bool, List, Option, Some};
ghost use Rattle.request_data.specs.declared.request.Request.{Request};
ghost use Rattle.request_data.specs.declared.request.Request.TheVariants.{Pass};
ghost use Rattle.request_data.specs.declared.request.NodeOrder.{NodeOrder};
ghost use Rattle.reply_data.specs.declared.reply.Reply.{Reply};
ghost use Rattle.reply_data.specs.declared.reply.Reply.TheVariants.{Idle, Refused};
ghost use Rattle.reply_data.specs.declared.refusal.Refusal.{Refusal};
ghost use Rattle.plain_data.specs.Confs.{ConfView};
ghost use Rattle.plain_data.specs.declared.conf.PartState.{PartState};
ghost use Rattle.job_table.specs.declared.record.JobRecord.{JobRecord};
ghost use Rattle.resource_profile.specs.Counts.{IsTickedUpTo};
ghost use Rattle.backfill_planner.specs.Plans.{PlannedView};
ghost use Rattle.ctl_state.specs.State.{State};
ghost use Rattle.ctl_state.specs.Soundness.{IsSound};
ghost use Rattle.ctl_state.specs.Verdicts.{Stays, Makes};
ghost use Rattle.ctl_node_side.specs.Passes.{after_pass, made_by_pass};
ghost use Rattle.ctl_jobs.specs.declared.action.Action.{Action};
ghost use Rattle.ctl_jobs.specs.Changing.{change_after, change_made};
ghost use Rattle.ctl_nodes.specs.Updating.{update_after, update_made};
ghost use Rattle.ctl_reconfigure.specs.Reconfiguring.{reconfigure_made, reconfigured};
ghost use Rattle.ctl_core.specs.Operating.{partition_after, partition_made};
ghost use Rattle.ctl_core.specs.Step.{verdict_of, reply_of, state_after, kept_after, steps_of, raised, input_at, ChangesNothing, IsHinted, IsInRange};

use ctl_jobs::laws::{what_users_do_keeps_all_sound, where_no_job_changes_nothing_does};
use ctl_jobs::submission_laws::{a_submission_changes_the_state, a_submission_keeps_all_sound};
use ctl_node_side::laws::{
    a_report_met_keeps_all_sound, a_whole_pass_keeps_all_sound,
    a_whole_pass_over_its_own_plan_counts_nothing, an_idle_whole_pass_changes_nothing,
};
use ctl_nodes::laws::{an_idle_order_changes_nothing, updating_nodes_keeps_all_sound};
use ctl_nodes::reservation_laws::{
    making_and_taking_reservations_changes_the_state,
    making_and_taking_reservations_keeps_all_sound,
};
use ctl_reconfigure::laws::{
    a_reconfiguration_keeps_all_sound, an_idle_reconfiguration_changes_nothing,
};
use ctl_state::laws::{
    a_shutdown_keeps_all_sound, sizes_keep_all_sound, states_of_partitions_keep_all_sound,
    time_keeps_all_sound,
};

/// Whatever is asked, what is sound stays sound.
pub fn a_step_keeps_all_sound()
    ensures { (s : State) (now : ℕ) (user : List ℕ) (request : Request) → IsSound s → IsInRange request
        → IsSound (state_after s now user request) }
{
    a_submission_keeps_all_sound();
    what_users_do_keeps_all_sound();
    updating_nodes_keeps_all_sound();
    making_and_taking_reservations_keeps_all_sound();
    a_report_met_keeps_all_sound();
    a_whole_pass_keeps_all_sound();
    a_reconfiguration_keeps_all_sound();
    sizes_keep_all_sound();
    states_of_partitions_keep_all_sound();
    a_shutdown_keeps_all_sound();
    time_keeps_all_sound();
}

/// A request is decided at its raised moment as at the one handed in.
pub fn raised_moments_decide_alike()
    ensures reply { (s : State) (now : ℕ) (user : List ℕ) (request : Request) → IsSound s
        → reply_of s (raised s now) user request ≡ reply_of s now user request }
    ensures state { (s : State) (now : ℕ) (user : List ℕ) (request : Request) → IsSound s
        → state_after s (raised s now) user request ≡ state_after s now user request }
{}

/// A request is idle only where it would change nothing but the moment: a pass, what is done to jobs, what is said of
/// nodes, another state of a partition, a slurm.conf that says what the last one said; and such a request is idle. What
/// an accepted request makes is another state, also before it bears its moment.
pub fn idle_requests_change_nothing()
    ensures idle { (s : State) (now : ℕ) (user : List ℕ) (request : Request)
        → reply_of s now user request ≡ Idle → ChangesNothing s (raised s now) user request }
    ensures pass { (s : State) (moment : ℕ) → after_pass s moment ≡ s → made_by_pass s moment ≡ Stays }
    ensures jobs { (s : State) (moment : ℕ) (user : List ℕ) (action : Action) (named : JobRecord → Bool)
        → change_after s moment user action named ≡ s → change_made s moment user action named ≡ Stays }
    ensures nodes { (s : State) (moment : ℕ) (names : List (List ℕ)) (state : NodeOrder)
        → update_after s moment names state ≡ s → update_made s moment names state ≡ Stays }
    ensures partition { (s : State) (place : ℕ) (state : PartState)
        → partition_after s place state ≡ s → partition_made s state (Some place) ≡ Stays }
    ensures conf { (s : State) (moment : ℕ) (conf : ConfView)
        → reconfigured s moment conf ≡ s → reconfigure_made s moment conf ≡ Stays }
    ensures made { (s after : State) (now : ℕ) (user : List ℕ) (request : Request) (reply : Reply)
        → verdict_of s now user request ≡ Makes reply after → after ≢ s }
{
    a_submission_changes_the_state();
    where_no_job_changes_nothing_does();
    an_idle_order_changes_nothing();
    making_and_taking_reservations_changes_the_state();
    an_idle_whole_pass_changes_nothing();
    an_idle_reconfiguration_changes_nothing();
}

/// A refused pass leaves the plan that is kept, and so does every other request.
pub fn only_a_pass_that_is_made_changes_the_kept_plan()
    ensures refused { (s : State) (kept : Option PlannedView) (now : ℕ) (user : List ℕ) (refusal : Refusal)
        → reply_of s now user Pass ≡ Refused refusal → kept_after s kept now user Pass ≡ kept }
    ensures others { (s : State) (kept : Option PlannedView) (now : ℕ) (user : List ℕ) (request : Request)
        → request ≢ Pass → kept_after s kept now user request ≡ kept }
{}

/// A pass over the very plan of what it would plan counts nothing.
pub fn a_pass_with_its_own_hint_counts_nothing()
    ensures { (s : State) (now : ℕ) (user : List ℕ) (before after : ℕ) → IsSound s
        → IsTickedUpTo (steps_of s now user) before after
        → IsHinted (input_at s now) s now before after → after ≡ before }
{
    a_whole_pass_over_its_own_plan_counts_nothing();
}
