//! What holds of every report and every whole pass. A law is the contract of a function that does nothing but call the
//! laws it rests on.

ghost use Rattle.std.specs.Prelude.{◌≡◌, ◌⊎◌, ℕ, ◌≤◌, Bool, true, List, All, Any, Contains, filter, map};
ghost use Rattle.request_data.specs.declared.report.Report.{Report};
ghost use Rattle.backfill_planner.specs.declared.Placed.{Placed};
ghost use Rattle.job_table.specs.declared.record.JobRecord.{JobRecord};
ghost use Rattle.job_table.specs.JobStates.{is_running};
ghost use Rattle.job_table.specs.Table.{HaveRisingIds};
ghost use Rattle.ctl_state.specs.Soundness.{IsSound};
ghost use Rattle.ctl_state.specs.State.{State, last_moment};
ghost use Rattle.ctl_state.specs.Verdicts.{stamped};
ghost use Rattle.ctl_nodes.specs.Failing.{after_loss, loses};
ghost use Rattle.ctl_pass.specs.Passing.{outcome};
ghost use Rattle.ctl_pass.specs.Readiness.{jobs_left, placements};
ghost use Rattle.ctl_pass.specs.Starting.{HasStarted, WasHeldBack};
ghost use Rattle.ctl_node_side.specs.Reporting.{report_after};
ghost use Rattle.ctl_node_side.specs.Keeping.{put_all};
ghost use Rattle.ctl_node_side.specs.Passes.{IsPassedOver, PassIsFree, after_pass, pass_input, pass_is_idle};
ghost use Rattle.ctl_node_side.specs.Restarting.{met};
ghost use Rattle.ctl_node_side.specs.Silence.{silenced};

use crate::report_laws::a_report_keeps_all_sound;
use ctl_nodes::laws::{lost_nodes_keep_all_sound, others_stay_where_nodes_are_lost};
use ctl_pass::laws::{
    a_pass_keeps_all_sound, a_pass_over_its_own_plan_counts_nothing, a_started_job_was_planned,
    an_idle_pass_changes_nothing, starts_are_free, starts_get_all_they_planned,
};
use ctl_state::laws::nodes_that_stay_keep_all_sound;
use node_state::laws::a_change_leaves_the_confs;

/// Nodes that fall silent leave all sound.
pub fn silence_keeps_all_sound()
    ensures { (s : State) (now : ℕ) → IsSound s → s.moment ≤ now → now ≤ last_moment → IsSound (silenced s now) }
{
    lost_nodes_keep_all_sound();
    nodes_that_stay_keep_all_sound();
    a_change_leaves_the_confs();
}

/// A whole pass keeps all sound.
pub fn a_whole_pass_keeps_all_sound()
    ensures { (s : State) (now : ℕ) → IsSound s → s.moment ≤ now → now ≤ last_moment
        → IsSound (stamped now (after_pass s now)) }
{
    silence_keeps_all_sound();
    a_pass_keeps_all_sound();
}

/// A whole pass is idle exactly where it would change nothing but the moment.
pub fn an_idle_whole_pass_changes_nothing()
    ensures idle { (s : State) (now : ℕ) → pass_is_idle s now ≡ true → after_pass s now ≡ s }
    ensures only { (s : State) (now : ℕ) → after_pass s now ≡ s → pass_is_idle s now ≡ true }
{
    an_idle_pass_changes_nothing();
}

/// Whatever state a pass comes in, it starts jobs alone that nothing hinders once silent nodes are seen to.
pub fn passes_are_free()
    ensures { (s : State) (now : ℕ) → PassIsFree s now }
{
    starts_are_free();
}

/// Each placement of a pass that begins now is of a job that runs after the pass, since now, with all that was planned
/// for it; or it stays in the plan, and its job reached a limit at its turn.
pub fn starts_of_passes_get_all_they_planned()
    ensures { (s : State) (now : ℕ) → IsSound s → s.moment ≤ now → now ≤ last_moment
        → All (λ (placed : Placed). placed.start ≡ now
        → Any (HasStarted now placed) (after_pass s now).jobs
        ⊎ (Contains (after_pass s now).plan placed
        × WasHeldBack (silenced s now) now (jobs_left (silenced s now) now) (outcome (silenced s now) now).starts
        placed.id))
        (placements (silenced s now) now) }
{
    silence_keeps_all_sound();
    starts_get_all_they_planned();
}

/// A job that runs after a pass ran before it just so, or a placement that begins now is of it.
pub fn a_job_started_by_a_pass_was_planned()
    ensures { (s : State) (now : ℕ)
        → All (λ (job : JobRecord). is_running job.state ≡ true
        → Contains s.jobs job
        ⊎ Any (λ (placed : Placed). (placed.id ≡ job.id) × (placed.start ≡ now)) (placements (silenced s now) now))
        (after_pass s now).jobs }
{
    a_started_job_was_planned();
}

/// Over the very plan that a pass makes each job stands as it stood, and nothing is counted.
pub fn a_whole_pass_over_its_own_plan_counts_nothing()
    ensures { (s : State) (now before after : ℕ) → IsSound s → s.moment ≤ now → now ≤ last_moment
        → IsPassedOver (pass_input s now) s now before after → after ≡ before }
{
    silence_keeps_all_sound();
    a_pass_over_its_own_plan_counts_nothing();
}

/// A report keeps all sound, also one of a daemon that was restarted.
pub fn a_report_met_keeps_all_sound()
    ensures { (s : State) (now node : ℕ) (report : Report) → IsSound s → s.moment ≤ now → now ≤ last_moment
        → IsSound (stamped now (report_after (met s now node report) now node report)) }
{
    lost_nodes_keep_all_sound();
    a_report_keeps_all_sound();
}

/// Jobs that changed with lost nodes are as they were once those are put back that held something of these.
pub(crate) fn kept_jobs_are_put_back()
    ensures { (now : ℕ) (lost : ℕ → Bool) (jobs : List JobRecord) → HaveRisingIds jobs
        → put_all (filter (loses lost) jobs) (map (after_loss now lost) jobs) ≡ jobs }
{
    others_stay_where_nodes_are_lost();
}
