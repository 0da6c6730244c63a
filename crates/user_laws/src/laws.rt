//! What holds of every step of the controller, as users see it.

ghost use Rattle.std.specs.Prelude.{◌≡◌, ◌≢◌, ◌⊎◌, ◌<◌, ◌≤◌, ℕ, ◌+◌, ◌-◌, ◌*◌, min, false, true, List, length, All, Any};
ghost use Rattle.plain_data.specs.declared.job.JobDesc.{JobDesc};
ghost use Rattle.request_data.specs.declared.query.Query.{Query};
ghost use Rattle.request_data.specs.declared.request.Request.{Request};
ghost use Rattle.request_data.specs.declared.request.Request.TheVariants.{Pass, Show, Submit};
ghost use Rattle.job_table.specs.declared.record.JobRecord.{JobRecord};
ghost use Rattle.job_table.specs.JobStates.{is_pending, is_running};
ghost use Rattle.job_table.specs.Usage.{greatest_usage};
ghost use Rattle.ctl_state.specs.State.{State};
ghost use Rattle.ctl_waiting.specs.Usage.{usage_at};
ghost use Rattle.ctl_state.specs.Holds.{deadline};
ghost use Rattle.ctl_state.specs.Refusals.{is_privileged};
ghost use Rattle.ctl_state.specs.Soundness.{IsSound};
ghost use Rattle.ctl_core.specs.Step.{is_made, raised, reply_of, state_after};
ghost use Rattle.user_laws.specs.Asking.{answer_to};
ghost use Rattle.user_laws.specs.Cancelling.{IsCancelledBy, is_cancelled};
ghost use Rattle.user_laws.specs.Others.{AddsOwn, LeavesOthers};
ghost use Rattle.user_laws.specs.Staying.{HasGone, IsSame, RunsThere, may_end};
ghost use Rattle.user_laws.specs.Using.{cpus_run_by};
ghost use Rattle.user_laws.specs.Waiting.{FoundOk, IsRunningThere};

use backfill_planner::laws::placements_are_of_ranked_jobs;
use ctl_node_side::laws::{a_job_started_by_a_pass_was_planned, silence_keeps_all_sound};
use ctl_pass::laws::{planned_jobs_are_candidates, what_a_pass_plans_is_sound};
use ctl_state::laws::a_stable_sort_makes_the_order;
use job_table::record::JobRecord as Record;

/// No job is lost: across any step each job is there with its number, but for one that ended so long ago, and for which
/// no pending job waits, whose record goes in a pass.
pub fn no_job_is_lost()
    ensures { (s : State) (now : ℕ) (user : List ℕ) (request : Request) → All (λ (job : JobRecord).
        HasGone s (raised s now) request job
        ⊎ Any (λ (after : JobRecord). after.id ≡ job.id) (state_after s now user request).jobs) s.jobs }
{}

/// Only a pass starts jobs: after any other step each job is an old one, started as often, or a new one that was never
/// started, and whoever runs ran before by the same start. And only passes, reports, cancels, requeues and nodes that
/// are set down take a job out of Running: it runs on through any other step, and a new
/// slurm.conf is one.
pub fn only_passes_start_jobs()
    ensures starts { (s : State) (now : ℕ) (user : List ℕ) (request : Request) → request ≢ Pass
        → All (λ (after : JobRecord). Any (λ (job : JobRecord). IsSame after job) s.jobs ⊎ (after.starts ≡ 0))
        (state_after s now user request).jobs }
    ensures runs { (s : State) (now : ℕ) (user : List ℕ) (request : Request) → request ≢ Pass
        → All (λ (after : JobRecord). is_running after.state ≡ true → Any (RunsThere after) s.jobs)
        (state_after s now user request).jobs }
    ensures ends { (s : State) (now : ℕ) (user : List ℕ) (request : Request) → may_end request ≡ false
        → All (λ (job : JobRecord). is_running job.state ≡ true
        → Any (RunsThere job) (state_after s now user request).jobs) s.jobs }
{}

/// Only a cancel cancels: whoever is cancelled after a step, or is to be once his nodes have let him go, was so before by
/// the same start, or the step is a cancel that means him, by a user who may do that.
pub fn only_cancels_cancel()
    ensures { (s : State) (now : ℕ) (user : List ℕ) (request : Request) → All (λ (after : JobRecord).
        is_cancelled after.state ≡ true → Any (IsCancelledBy s user request after) s.jobs)
        (state_after s now user request).jobs }
{}

/// A query changes nothing, and its answer is the one that the state gives at the moment, to whoever asks: none asked
/// before it matters.
pub fn queries_change_nothing()
    ensures state { (s : State) (now : ℕ) (user : List ℕ) (query : Query) → state_after s now user (Show query) ≡ s }
    ensures answer { (s : State) (now : ℕ) (user : List ℕ) (query : Query)
        → reply_of s now user (Show query) ≡ answer_to s now user query }
    ensures later { (s : State) (now moment : ℕ) (user other : List ℕ) (query : Query) (request : Request)
        → reply_of (state_after s now user (Show query)) moment other request ≡ reply_of s moment other request }
{}

/// Whoever is not privileged leaves all others alone, whatever he asks: their jobs stay as they were, in their order, and
/// so do nodes, partitions, reservations, settings, associations and qualities of service. A submission adds jobs of
/// whoever asks, and leaves each job that there was.
pub fn others_are_left_alone()
    ensures others { (s : State) (now : ℕ) (user : List ℕ) (request : Request) → is_privileged s user ≡ false
        → LeavesOthers user s (state_after s now user request) }
    ensures submission { (s : State) (now : ℕ) (user : List ℕ) (desc : JobDesc)
        → AddsOwn user s.jobs (state_after s now user (Submit desc)).jobs }
{}

/// After a pass that was made no running job is past its limit: its end lies ahead of the pass's moment.
pub fn no_running_job_is_past_its_limit()
    ensures { (s : State) (now : ℕ) (user : List ℕ) → IsSound s → is_made (reply_of s now user Pass) ≡ true
        → All (λ (job : JobRecord). is_running job.state ≡ true → raised s now < deadline job)
        (state_after s now user Pass).jobs }
{}

/// Usage grows by what runs: across a step, from the state's moment to the step's, what an association has used grows by
/// the processors that its running jobs hold, for each second, up to the greatest usage, and by nothing else. No step
/// changes what has been used at its moment, and time adds what runs.
pub fn usage_grows_by_what_runs()
    ensures grows { (s : State) (now : ℕ) (user : List ℕ) (request : Request) (place : ℕ) → IsSound s
        → place < length s.assocs → usage_at (state_after s now user request) (raised s now) place
        ≡ min (usage_at s s.moment place + (raised s now - s.moment) * cpus_run_by s place) greatest_usage }
    ensures steps { (s : State) (now : ℕ) (user : List ℕ) (request : Request) (place : ℕ) → IsSound s
        → usage_at (state_after s now user request) (raised s now) place ≡ usage_at s (raised s now) place }
    ensures time { (s : State) (moment seconds place : ℕ) → IsSound s → s.moment ≤ moment → place < length s.assocs
        → usage_at s (moment + seconds) place
        ≡ min (usage_at s moment place + seconds * cpus_run_by s place) greatest_usage }
{
    silence_keeps_all_sound();
    what_a_pass_plans_is_sound();
    planned_jobs_are_candidates();
    placements_are_of_ranked_jobs();
    a_stable_sort_makes_the_order::<Record>();
}

/// Who was started for the first time by a pass, though it waits for others to be ok, found each job that they are
/// completed, or its record gone: so it is in the state after the pass, where no item of the dependency is one of several
/// that are enough.
pub fn who_waited_for_ok_found_it()
    ensures { (s : State) (now : ℕ) (user : List ℕ) → IsSound s → All (λ (job : JobRecord).
        is_pending job.state ≡ true → job.starts ≡ 0 → Any (IsRunningThere job) (state_after s now user Pass).jobs
        → FoundOk (state_after s now user Pass).jobs job) s.jobs }
{
    silence_keeps_all_sound();
    what_a_pass_plans_is_sound();
    planned_jobs_are_candidates();
    a_job_started_by_a_pass_was_planned();
    placements_are_of_ranked_jobs();
    a_stable_sort_makes_the_order::<Record>();
}
