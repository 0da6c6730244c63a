//! What holds of whatever a pass starts, as users see it.

ghost use Rattle.std.specs.Prelude.{◌≡◌, ℕ, ◌+◌, true, List, take, slice_get, Some};
ghost use Rattle.request_data.specs.declared.request.Request.TheVariants.{Pass};
ghost use Rattle.ctl_state.specs.Soundness.{IsSound};
ghost use Rattle.ctl_state.specs.State.{State};
ghost use Rattle.ctl_core.specs.Step.{is_made, raised, reply_of, state_after};
ghost use Rattle.ctl_desk.specs.declared.entry.Entry.{Entry};
ghost use Rattle.ctl_desk.specs.History.{History, IsHistory, after_all};
ghost use Rattle.user_laws.specs.Asked.{StartsHaveWhatWasAsked};
ghost use Rattle.user_laws.specs.Planning.{plan_at};
ghost use Rattle.user_laws.specs.Whole.{IsParted};

use backfill_planner::laws::{placements_are_first, placements_are_of_ranked_jobs};
use ctl_node_side::laws::{
    a_job_started_by_a_pass_was_planned, a_whole_pass_keeps_all_sound,
    an_idle_whole_pass_changes_nothing, silence_keeps_all_sound,
    starts_of_passes_get_all_they_planned,
};
use ctl_pass::laws::{planned_jobs_are_candidates, what_a_pass_plans_is_sound};
use ctl_state::laws::{a_stable_sort_makes_the_order, jobs_get_nodes_that_are_there};
use job_table::record::JobRecord as Record;
use node_state::reservation_laws::reservations_stay_apart;

/// A start has what was asked: a job that runs after a pass ran before it just so, or it began at the pass's moment, and
/// has what it asked for when it was handed in. It has nodes of its partition that are available, with its features, all
/// that it requires and none that it excludes, as many as it may have; and on them the processors and the memory of all
/// its tasks. So it is of every pass of a history.
pub fn a_start_has_what_was_asked()
    ensures step { (s : State) (now : ℕ) (user : List ℕ) → IsSound s
        → StartsHaveWhatWasAsked s (state_after s now user Pass) (raised s now) }
    ensures history { (h : History) (place : ℕ) (entry : Entry) → IsHistory h
        → slice_get h.entries place ≡ Some entry → entry.request ≡ Pass
        → StartsHaveWhatWasAsked (after_all h.opening (take place h.entries))
        (after_all h.opening (take (place + 1) h.entries)) entry.moment }
{
    silence_keeps_all_sound();
    what_a_pass_plans_is_sound();
    planned_jobs_are_candidates();
    placements_are_of_ranked_jobs();
    a_stable_sort_makes_the_order::<Record>();
    placements_are_first();
    jobs_get_nodes_that_are_there();
    reservations_stay_apart();
    starts_of_passes_get_all_they_planned();
    a_job_started_by_a_pass_was_planned();
    a_whole_pass_keeps_all_sound();
}

/// The plan is whole: the plan from scratch of a pass that was made is parted into the placements that have started,
/// each at the pass's moment with all that it was planned, and those that stand in the plan behind it, in their order.
pub fn the_plan_is_whole()
    ensures { (s : State) (now : ℕ) (user : List ℕ) → IsSound s → is_made (reply_of s now user Pass) ≡ true
        → IsParted (plan_at s (raised s now)) (raised s now) (state_after s now user Pass).jobs
        (state_after s now user Pass).plan }
{
    silence_keeps_all_sound();
    what_a_pass_plans_is_sound();
    planned_jobs_are_candidates();
    placements_are_of_ranked_jobs();
    a_stable_sort_makes_the_order::<Record>();
    starts_of_passes_get_all_they_planned();
    a_whole_pass_keeps_all_sound();
    an_idle_whole_pass_changes_nothing();
}
