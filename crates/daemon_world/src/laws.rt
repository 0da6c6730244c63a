//! What holds of the controller and its daemons, whatever happens. A law is the contract of a function that does
//! nothing but call the laws it rests on.

ghost use Rattle.std.specs.Prelude.{◌≡◌, ◌⊎◌, ℕ, List, Some};
ghost use Rattle.ctl_desk.specs.declared.entry.Answer.{Answer};
ghost use Rattle.ctl_desk.specs.Desk.{Sight};
ghost use Rattle.node_daemon.specs.Daemon.{Daemon, polled};
ghost use Rattle.node_daemon.specs.Turn.{AnswersReport, IsCutTurn, after_reply};
ghost use Rattle.simulation.specs.Simulation.{Simulated, rounds};
ghost use Rattle.daemon_world.specs.Claims.{AreHeld, RunsApart, RunsOnce, claims_of};
ghost use Rattle.daemon_world.specs.Courses.{Comes, Shows};
ghost use Rattle.daemon_world.specs.Finals.{EndOnce};
ghost use Rattle.daemon_world.specs.Together.{KeptRises, Together};
ghost use Rattle.daemon_world.specs.Turns.{IsAskedIn, Leads, state_told};
ghost use Rattle.daemon_world.specs.Worlds.{AllCanHappen, CanHappen, Event, HasComeAbout, World, world_after, world_after_all};

use backfill_planner::laws::placements_are_of_ranked_jobs;
use ctl_core::laws::a_step_keeps_all_sound;
use ctl_node_side::laws::{a_report_met_keeps_all_sound, silence_keeps_all_sound};
use ctl_node_side::report_laws::a_node_without_jobs_is_ordered_alike;
use ctl_nodes::laws::lost_nodes_keep_all_sound;
use ctl_pass::laws::{planned_jobs_are_candidates, what_a_pass_plans_is_sound};
use ctl_state::laws::a_stable_sort_makes_the_order;
use job_table::record::JobRecord;
use node_daemon::laws::orders_are_due;
use node_state::laws::{a_change_leaves_the_confs, names_lead_to_places};

/// Whatever happens, the controller and each daemon stay together, and the numbers of a node's last accepted report
/// don't fall. It is own: Slurm's manuals promise nothing of lost and repeated messages.
pub fn every_event_keeps_all_together()
    ensures together { (w : World) (event : Event) → Together w → CanHappen w event → Together (world_after w event) }
    ensures rises { (w : World) (event : Event) (node : List ℕ) → Together w → CanHappen w event
        → KeptRises w.state (world_after w event).state node }
{
    a_step_keeps_all_sound();
    a_report_met_keeps_all_sound();
    lost_nodes_keep_all_sound();
    a_node_without_jobs_is_ordered_alike();
    a_change_leaves_the_confs();
    names_lead_to_places();
    silence_keeps_all_sound();
    what_a_pass_plans_is_sound();
    planned_jobs_are_candidates();
    placements_are_of_ranked_jobs();
    a_stable_sort_makes_the_order::<JobRecord>();
}

/// Over every list of events from an opening world: no daemon runs two starts on one processor, or one start twice; and
/// each start that the daemon of a node runs which the configuration in force has and which isn't down is held on that
/// node by the controller, with those processors.
pub fn daemons_run_what_is_held()
    ensures apart { (w : World) (node : List ℕ) → HasComeAbout w → RunsApart (w.daemons node) }
    ensures once { (w : World) (node : List ℕ) → HasComeAbout w → RunsOnce (w.daemons node) }
    ensures held { (w : World) (node : List ℕ) → HasComeAbout w → AreHeld w.state node (claims_of (w.daemons node)) }
    ensures together { (w : World) → HasComeAbout w → Together w }
{
    every_event_keeps_all_together();
}

/// The numbers of a node's last accepted report never fall, also where another slurm.conf dropped the node and one
/// brought it back: what was accepted once is stale from then on.
pub fn accepted_reports_rise()
    ensures { (w : World) (events : List Event) (node : List ℕ) → HasComeAbout w → AllCanHappen w events
        → KeptRises w.state (world_after_all w events).state node }
{
    every_event_keeps_all_together();
}

/// Each start of a job leaves Running at most once, and then it is settled how it ends, but that a cancel may come to
/// one that was to start again.
pub fn starts_end_once()
    ensures { (w : World) (events : List Event) → HasComeAbout w → AllCanHappen w events
        → EndOnce w.state (world_after_all w events).state }
{
    every_event_keeps_all_together();
    silence_keeps_all_sound();
    what_a_pass_plans_is_sound();
    planned_jobs_are_candidates();
    placements_are_of_ranked_jobs();
    a_stable_sort_makes_the_order::<JobRecord>();
}

/// A daemon's turn at a desk is events of the world, where its report is answered in the world's state: it polls, the
/// report comes to the controller, and the orders that answer come to it; all of these, or where memory is wanting the
/// first ones of them. They lead to the state that the controller has behind the report, or had, and to the daemon that
/// the turn leaves.
pub fn a_turn_is_events()
    ensures whole { (w : World) (now : ℕ) (node : List ℕ) (desk desk' : Sight) (answer : Answer) → Together w
        → IsAskedIn w now node desk desk' → AnswersReport now (w.daemons node) desk desk' answer
        → Leads w node (state_told w now node) (after_reply now answer.reply (polled now (w.daemons node))) }
    ensures cut { (w : World) (now : ℕ) (node : List ℕ) (turned : Daemon) (desk desk' : Sight)
        → IsCutTurn now (w.daemons node) turned desk desk'
        → Leads w node w.state turned ⊎ Leads w node (state_told w now node) turned }
{
    orders_are_due();
}

/// So is the course of a simulation, round by round, from a world that is as it has it: the turns of its daemons, its
/// passes and its looks at the jobs lead to a world that is as the simulation ends.
pub fn a_simulation_is_events()
    ensures { (w : World) (most : ℕ) (sim end : Simulated) → Shows w sim → rounds most sim ≡ Some end → Comes w end }
{
    orders_are_due();
}
