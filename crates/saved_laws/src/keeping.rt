//! What is kept of each state that a controller comes to.

ghost use Rattle.std.specs.Prelude.{◌≡◌, ◌≢◌, ℕ, true, false, List, All};
ghost use Rattle.plain_data.specs.Assocs.{AssocView};
ghost use Rattle.plain_data.specs.Confs.{ConfView};
ghost use Rattle.request_data.specs.declared.request.Request.{Request};
ghost use Rattle.request_data.specs.declared.request.Request.TheVariants.{Reconfigure};
ghost use Rattle.reply_data.specs.declared.reply.Reply.TheVariants.{Done};
ghost use Rattle.command_words.specs.declared.header.Meaning.{Meaning};
ghost use Rattle.ctl_state.specs.Soundness.{IsSound};
ghost use Rattle.ctl_state.specs.State.{State, opening};
ghost use Rattle.ctl_reconfigure.specs.Reconfiguring.{settings_after};
ghost use Rattle.ctl_core.specs.Step.{reply_of, state_after};
ghost use Rattle.ctl_desk.specs.declared.entry.Entry.{Entry};
ghost use Rattle.ctl_desk.specs.History.{after_all};
ghost use Rattle.ctl_saved.specs.Saving.{StandsInOrder};
ghost use Rattle.saved_laws.specs.Kept.{AreFiles, IsKept, IsKeptOver, in_force, is_reconfigure};
ghost use Rattle.saved_laws.specs.Scripts.{AsksInRange, KeepConf, KeepsRanges};
ghost use Rattle.script_run.specs.Script.{state_behind_all};

use backfill_planner::laws::parts_are_apart;
use ctl_core::laws::a_step_keeps_all_sound;
use ctl_node_side::laws::silence_keeps_all_sound;
use ctl_pass::laws::what_a_pass_plans_is_sound;
use ctl_reconfigure::laws::{a_plan_names_the_same_nodes, what_is_needed_stays};
use ctl_state::laws::{a_stable_sort_makes_the_order, jobs_get_nodes_that_are_there};
use job_table::record::JobRecord;

/// The opening of two files has all that is kept, and each step keeps it. So does each history and each script, and all
/// stays sound. In such a state what is saved stands in order. What is kept is so of the slurm.conf in force: at the
/// opening the one that opened, and no step but one that takes another one changes it, or lets a node be gone.
pub fn what_is_kept_stays_kept()
    ensures opening { (conf : ConfView) (file : AssocView) → AreFiles conf file → IsKeptOver file (opening conf file) }
    ensures step { (file : AssocView) (s : State) (now : ℕ) (user : List ℕ) (request : Request) → IsSound s
        → KeepsRanges request → IsKeptOver file s → IsKeptOver file (state_after s now user request) }
    ensures script { (file : AssocView) (s : State) (script : List Meaning) → IsSound s → All AsksInRange script
        → IsKeptOver file s → IsSound (state_behind_all s script) × IsKeptOver file (state_behind_all s script) }
    ensures history { (file : AssocView) (s : State) (entries : List Entry) → IsSound s
        → All (λ (e : Entry). KeepsRanges e.request) entries → IsKeptOver file s
        → IsSound (after_all s entries) × IsKeptOver file (after_all s entries) }
    ensures order { (first s : State) → IsKept first s → StandsInOrder s }
    ensures first { (conf : ConfView) (file : AssocView) → in_force (opening conf file) ≡ conf }
    ensures stays { (s : State) (now : ℕ) (user : List ℕ) (request : Request) → is_reconfigure request ≡ false
        → in_force (state_after s now user request) ≡ in_force s }
    ensures gone { (s : State) (now : ℕ) (user : List ℕ) (request : Request) → is_reconfigure request ≡ false
        → (state_after s now user request).gone ≡ s.gone }
    ensures taken { (s : State) (now : ℕ) (user : List ℕ) (conf : ConfView) (bytes : ℕ)
        → reply_of s now user (Reconfigure conf bytes) ≡ Done
        → in_force (state_after s now user (Reconfigure conf bytes))
        ≡ record conf { settings = settings_after s.settings conf.settings } }
{
    a_step_keeps_all_sound();
    parts_are_apart();
    a_stable_sort_makes_the_order::<JobRecord>();
    jobs_get_nodes_that_are_there();
    silence_keeps_all_sound();
    what_a_pass_plans_is_sound();
    what_is_needed_stays();
    a_plan_names_the_same_nodes();
}

/// Where no new slurm.conf is taken, the one in force stays, and no more nodes are gone: behind a request that is none, or
/// isn't done; behind a script in which none is done, and behind a history in which there is none.
pub fn what_is_in_force_stays_where_none_is_taken()
    ensures step { (s : State) (now : ℕ) (user : List ℕ) (request : Request)
        → (is_reconfigure request ≡ true → reply_of s now user request ≢ Done)
        → (in_force (state_after s now user request) ≡ in_force s) × ((state_after s now user request).gone ≡ s.gone) }
    ensures script { (s : State) (script : List Meaning) → KeepConf s script
        → (in_force (state_behind_all s script) ≡ in_force s) × ((state_behind_all s script).gone ≡ s.gone) }
    ensures history { (s : State) (entries : List Entry) → All (λ (e : Entry). is_reconfigure e.request ≡ false) entries
        → (in_force (after_all s entries) ≡ in_force s) × ((after_all s entries).gone ≡ s.gone) }
{}
