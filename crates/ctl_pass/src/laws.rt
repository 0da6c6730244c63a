//! What holds of every pass. A law is the contract of a function that does nothing but call the laws
//! that it rests on.

ghost use Rattle.std.specs.Prelude.{◌≡◌, ◌⊎◌, ℕ, ◌≤◌, ◌<◌, [], All, Any, Contains, List, Some, true, false, ◌+◌, ◌*◌, fold, length, map, slice_index_or, take};
ghost use Rattle.backfill_planner.specs.declared.Placed.{Placed};
ghost use Rattle.backfill_planner.specs.declared.job.PlanJob.{PlanJob};
ghost use Rattle.job_table.specs.declared.record.JobRecord.{JobRecord};
ghost use Rattle.ctl_state.specs.State.{State, last_job_id, last_moment};
ghost use Rattle.job_table.specs.JobStates.{is_running};
ghost use Rattle.ctl_state.specs.Soundness.{IsSound};
ghost use Rattle.ctl_state.specs.Verdicts.{stamped};
ghost use Rattle.ctl_waiting.specs.Candidates.{is_candidate};
ghost use Rattle.ctl_pass.specs.Readiness.{RankedStays, jobs_left, ready, placements};
ghost use Rattle.ctl_pass.specs.Starting.{HasStarted, JobStart, WasHeldBack, begun, may_start};
ghost use Rattle.ctl_pass.specs.Reserved.{PlansKeepToReservations};
ghost use Rattle.ctl_pass.specs.Freedom.{StartsAreFree};
ghost use Rattle.ctl_pass.specs.Taking.{CanStart, unplanned};
ghost use Rattle.ctl_pass.specs.Inputs.{IsSteppedOver, input_of};
ghost use Rattle.backfill_planner.specs.Going.{held_without, without};
ghost use Rattle.resource_profile.specs.Profiles.{AreWithin};
ghost use Rattle.ctl_state.specs.Planning.{room_of};
ghost use Rattle.ctl_pass.specs.Limits.{holds_of_job};
ghost use Rattle.ctl_pass.specs.Naming.{preempts_at_all};
ghost use Rattle.ctl_pass.specs.Preempting.{gone_for, is_preemptable, makes_room, places_gone, preemptable, staying_holds, victims_in};
ghost use Rattle.ctl_pass.specs.Passing.{begun_in, jobs_ended, outcome, pass_after, placements_due, is_idle};

use backfill_planner::laws::{
    parts_are_apart, placements_are_first, placements_are_of_ranked_jobs,
    placements_keep_out_of_barred_times, starts_fit,
};
use backfill_planner::victim_laws::{
    nobody_goes_without_need as needed_of_any, victims_are_in_order,
};
use ctl_state::laws::{
    a_stable_sort_makes_the_order, changing_keeps_all_sound, charging_keeps_all_sound,
    every_change_but_a_start_lets_go, jobs_are_kept, jobs_get_nodes_that_are_there,
    letting_go_keeps_all_sound, others_wait_on, parts_stay, plans_keep_all_sound,
    reservations_keep_all_sound, taking_keeps_all_sound, what_is_taken_is_counted,
};
use ctl_waiting::laws::priorities_stay;
use job_table::dependency_laws::passes_leave_standings;
use job_table::laws::{jobs_run_on, who_is_awaited_stays, who_leaves_is_charged};
use job_table::record::JobRecord;
use node_state::reservation_laws::reservations_stay_apart;

/// A pass keeps all sound.
pub fn a_pass_keeps_all_sound()
    ensures { (s : State) (now : ℕ) → IsSound s → s.moment ≤ now → now ≤ last_moment
        → IsSound (stamped now (pass_after s now)) }
{
    every_change_but_a_start_lets_go();
    jobs_are_kept();
    letting_go_keeps_all_sound();
    charging_keeps_all_sound();
    reservations_keep_all_sound();
    reservations_stay_apart();
    who_is_awaited_stays();
    a_stable_sort_makes_the_order::<JobRecord>();
    jobs_get_nodes_that_are_there();
    placements_are_of_ranked_jobs();
    parts_are_apart();
    starts_fit();
    taking_keeps_all_sound();
    what_is_taken_is_counted();
    others_wait_on();
    plans_keep_all_sound();
    changing_keeps_all_sound();
}

/// A pass is idle exactly where it would change nothing but the moment.
pub fn an_idle_pass_changes_nothing()
    ensures idle { (s : State) (now : ℕ) → is_idle s now ≡ true → pass_after s now ≡ s }
    ensures only { (s : State) (now : ℕ) → pass_after s now ≡ s → is_idle s now ≡ true }
{
    who_leaves_is_charged();
    a_stable_sort_makes_the_order::<JobRecord>();
    placements_are_of_ranked_jobs();
}

/// Each placement that begins now is of a job that runs after the pass, since now, with all that was planned for it; or
/// it stays in the plan, and its job reached a limit at its turn, beside the jobs that held processors then.
pub fn starts_get_all_they_planned()
    ensures { (s : State) (now : ℕ) → IsSound s → s.moment ≤ now → now ≤ last_moment
        → All (λ (placed : Placed). placed.start ≡ now
        → Any (HasStarted now placed) (pass_after s now).jobs
        ⊎ (Contains (pass_after s now).plan placed
        × WasHeldBack s now (jobs_left s now) (outcome s now).starts placed.id))
        (placements s now) }
{
    every_change_but_a_start_lets_go();
    jobs_are_kept();
    letting_go_keeps_all_sound();
    charging_keeps_all_sound();
    reservations_keep_all_sound();
    reservations_stay_apart();
    who_is_awaited_stays();
    a_stable_sort_makes_the_order::<JobRecord>();
    jobs_get_nodes_that_are_there();
    placements_are_of_ranked_jobs();
    parts_are_apart();
    starts_fit();
    taking_keeps_all_sound();
    what_is_taken_is_counted();
    others_wait_on();
    plans_keep_all_sound();
}

/// No start exceeds a limit: just before each, its job reached none of its array, its association, those above it and
/// its quality of service, beside the jobs that held processors then, those started before it in the pass among them.
pub fn no_start_exceeds_a_limit()
    ensures { (s : State) (now k : ℕ) (d : JobStart) → k < length (outcome s now).starts
        → may_start s (fold (begun now) (jobs_left s now) (take k (outcome s now).starts))
        (slice_index_or (outcome s now).starts k d).id ≡ true }
{}

/// What is planned is of candidates at the pass's moment: pending jobs that nothing hinders then.
pub fn planned_jobs_are_candidates()
    ensures { (s : State) (now : ℕ) → All (λ (placed : Placed).
        Any (λ (job : JobRecord). (job.id ≡ placed.id) × (is_candidate (ready s now) now job ≡ true))
        (ready s now).jobs)
        (placements s now) }
{
    a_stable_sort_makes_the_order::<JobRecord>();
    placements_are_of_ranked_jobs();
}

/// What is planned keeps to the reservations that aren't over: a job that names one has its nodes within its time alone,
/// and every other job outside it.
pub fn placements_keep_to_reservations()
    ensures { (s : State) (now : ℕ) → PlansKeepToReservations s now }
{
    a_stable_sort_makes_the_order::<JobRecord>();
    placements_are_first();
    placements_keep_out_of_barred_times();
    reservations_stay_apart();
}

/// All of it together: whatever state a pass comes in, it starts jobs alone that nothing hinders, and keeps them to the
/// reservations.
pub fn starts_are_free()
    ensures { (s : State) (now : ℕ) → StartsAreFree s now }
{
    no_start_exceeds_a_limit();
    planned_jobs_are_candidates();
    placements_keep_to_reservations();
}

/// A job that runs after a pass ran before it just so, or a placement that begins now is of it.
pub fn a_started_job_was_planned()
    ensures { (s : State) (now : ℕ)
        → All (λ (job : JobRecord). is_running job.state ≡ true
        → Contains s.jobs job
        ⊎ Any (λ (placed : Placed). (placed.id ≡ job.id) × (placed.start ≡ now)) (placements s now))
        (pass_after s now).jobs }
{}

/// What the candidates need stays as it is, and their order, while the first steps of a pass make its state ready.
pub fn what_is_ranked_stays()
    ensures { RankedStays }
{
    jobs_run_on();
    priorities_stay();
    passes_leave_standings();
    who_is_awaited_stays();
    reservations_stay_apart();
}

/// The state that a pass plans is sound, with no plan yet.
pub fn what_a_pass_plans_is_sound()
    ensures { (s : State) (now : ℕ) → IsSound s → s.moment ≤ now → now ≤ last_moment
        → IsSound (record (ready s now) { plan = []; moment = now }) }
{
    every_change_but_a_start_lets_go();
    jobs_are_kept();
    letting_go_keeps_all_sound();
    charging_keeps_all_sound();
    reservations_keep_all_sound();
    reservations_stay_apart();
    who_is_awaited_stays();
}

/// Over the very plan that a pass makes each job stands as it stood, and nothing is counted.
pub fn a_pass_over_its_own_plan_counts_nothing()
    ensures { (s : State) (now before after : ℕ) → IsSound s
        → IsSteppedOver (input_of s now) s now before after → after ≡ before }
{
    what_is_ranked_stays();
    a_stable_sort_makes_the_order::<JobRecord>();
    placements_are_first();
}

/// The placements that are due in a pass can start one after another.
pub(crate) fn what_is_due_can_start()
    ensures { (s : State) (now : ℕ) → IsSound s → s.moment ≤ now → now ≤ last_moment
        → CanStart (unplanned now (ready s now)) (placements_due s now) }
{
    every_change_but_a_start_lets_go();
    jobs_are_kept();
    letting_go_keeps_all_sound();
    charging_keeps_all_sound();
    reservations_keep_all_sound();
    reservations_stay_apart();
    who_is_awaited_stays();
    a_stable_sort_makes_the_order::<JobRecord>();
    jobs_get_nodes_that_are_there();
    placements_are_of_ranked_jobs();
    parts_are_apart();
    starts_fit();
}

/// Where preemption is off nobody goes, and the pass leaves what its starts leave.
pub fn without_preemption_nobody_goes()
    ensures victims { (s : State) (now : ℕ) → preempts_at_all s.settings ≡ false → victims_in s now ≡ [] }
    ensures pass { (s : State) (now : ℕ) → preempts_at_all s.settings ≡ false → pass_after s now ≡ begun_in s now }
{
    who_leaves_is_charged();
}

/// Whoever goes for a job might go for it: he ran before the pass and runs on, may be requeued, is of another quality of
/// service that the job's names, and ranks below it. So each victim of a pass ran before it.
pub fn victims_might_go()
    ensures might { (s : State) (now : ℕ) (need : PlanJob) (high : JobRecord) → All (λ id.
        Any (λ (job : JobRecord). (job.id ≡ id) × (is_preemptable s now high job ≡ true)) s.jobs)
        (gone_for s now need high) }
    ensures ran { (s : State) (now : ℕ) → All (λ id.
        Any (λ (job : JobRecord). (job.id ≡ id) × (is_running job.state ≡ true)) s.jobs) (victims_in s now) }
{
    a_stable_sort_makes_the_order::<JobRecord>();
}

/// Once those go that go for a job, it fits; were any one of them given back, it wouldn't.
pub fn nobody_goes_without_need()
    ensures enough { (s : State) (now : ℕ) (need : PlanJob) (high : JobRecord) (places : List ℕ)
        → places_gone s now need high ≡ Some places → makes_room s now need high places ≡ true }
    ensures needed { (s : State) (now : ℕ) (need : PlanJob) (high : JobRecord) (places : List ℕ)
        → places_gone s now need high ≡ Some places
        → All (λ place. makes_room s now need high (without place places) ≡ false) places }
{
    needed_of_any();
}

/// What stays held while jobs may go for another is within the nodes, with all that those hold that might go.
pub(crate) fn what_stays_held_fits()
    ensures { (s : State) (now : ℕ) (high : JobRecord) → IsSound s → s.moment ≤ now → now ≤ last_moment
        → AreWithin (map room_of s.nodes) (held_without (staying_holds s now high)
        (map (holds_of_job now) (preemptable s now high)) []) }
{
    what_is_due_can_start();
    parts_stay();
    who_is_awaited_stays();
    a_stable_sort_makes_the_order::<JobRecord>();
}

/// No more jobs start and stay than there are numbers.
pub fn few_start_or_stay()
    ensures { (s : State) (now : ℕ) → IsSound s
        → length (outcome s now).starts + length (outcome s now).stays ≤ last_job_id + 1 }
{
    a_stable_sort_makes_the_order::<JobRecord>();
}

/// No more jobs leave Running than twice as many as there are numbers: those past their limits, and victims.
pub fn few_end()
    ensures { (s : State) (now : ℕ) → IsSound s → jobs_ended s now ≤ 2 * (last_job_id + 1) }
{
    a_stable_sort_makes_the_order::<JobRecord>();
    victims_are_in_order();
}

/// There are no more jobs than numbers.
pub fn there_are_few_jobs()
    ensures { (s : State) → IsSound s → length s.jobs ≤ last_job_id + 1 }
{}
