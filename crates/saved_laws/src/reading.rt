//! What is saved can be read again.

ghost use Rattle.std.specs.Prelude.{◌≡◌, ◌≤◌, ℕ, Ok, IfOk, false, List, [], map, All};
ghost use Rattle.plain_data.specs.Assocs.{AssocView};
ghost use Rattle.plain_data.specs.Confs.{ConfView};
ghost use Rattle.job_table.specs.declared.record.JobRecord.{JobRecord};
ghost use Rattle.request_data.specs.declared.request.Request.{Request};
ghost use Rattle.block_frame.specs.declared.block.Block.{Block};
ghost use Rattle.command_words.specs.declared.header.Meaning.{Meaning};
ghost use Rattle.cluster_opening.specs.Restoring.{IsSavedText, Restores};
ghost use Rattle.ctl_state.specs.Soundness.{IsSound};
ghost use Rattle.ctl_state.specs.State.{State, opening};
ghost use Rattle.ctl_core.specs.Step.{state_after};
ghost use Rattle.ctl_desk.specs.declared.entry.Entry.{Entry};
ghost use Rattle.ctl_desk.specs.History.{after_all};
ghost use Rattle.ctl_saved.specs.Saving.{saved_of};
ghost use Rattle.ctl_restore.specs.Restored.{restored};
ghost use Rattle.ctl_session.specs.Meaning.{meaning_of};
ghost use Rattle.saved_laws.specs.Gone.{NamesEachGone};
ghost use Rattle.saved_laws.specs.Kept.{AreFiles, IsKept, IsKeptOver, in_force, is_reconfigure};
ghost use Rattle.saved_laws.specs.Scripts.{KeepsRanges};
ghost use Rattle.saved_rules.specs.Rules.{AsksByRules, RequestByRules};
ghost use Rattle.script_run.specs.Behind.{AreByRules};
ghost use Rattle.script_run.specs.Script.{state_behind_all};

use crate::keeping::{what_is_in_force_stays_where_none_is_taken, what_is_kept_stays_kept};
use crate::restoring::what_is_saved_comes_back;
use ctl_core::controller::Ctl;
use saved_rules::what_is_asked_is_by_the_rules;
use script_run::{SaveRefusal, saved_text};
use std::alloc::Global;

/// What jobs ask for is by the rules of sbatch(1) in the opening of two files, and stays so where what is handed in is by
/// them. All that a block asks is, so each script keeps it; and what is restored of a saved state keeps it.
pub fn what_jobs_ask_for_stays_by_the_rules()
    ensures opening { (conf : ConfView) (file : AssocView) → AreByRules (opening conf file) }
    ensures step { (s : State) (now : ℕ) (user : List ℕ) (request : Request) → RequestByRules request → AreByRules s
        → AreByRules (state_after s now user request) }
    ensures meanings { (s : State) (script : List Meaning) → All AsksByRules script → AreByRules s
        → AreByRules (state_behind_all s script) }
    ensures script { (s : State) (blocks : List Block) → AreByRules s
        → AreByRules (state_behind_all s (map meaning_of blocks)) }
    ensures history { (s : State) (entries : List Entry) → All (λ (e : Entry). RequestByRules e.request) entries
        → AreByRules s → AreByRules (after_all s entries) }
    ensures restored { (conf : ConfView) (file : AssocView) (s : State) → AreFiles conf file → IsSound s
        → IsKept (opening conf file) s → AreByRules s → AreByRules (restored conf file (saved_of s)) }
{
    what_is_asked_is_by_the_rules();
    what_is_saved_comes_back();
}

/// The text of a controller's state is read again as what was saved, and opens the slurm.conf in force and the
/// association file in the state that is restored of it, if no job was started more than 4,000,000,000 times: that is
/// this state, but that the history takes no room yet and no shutdown was accepted, where the plan names each node that
/// is gone. It is so behind each history of two files in which all that is asked keeps the ranges of its types and what
/// is handed in is by the rules of sbatch(1), as all is that a block asks; and wherever all is kept of the state, as of a
/// restored one, and its jobs are by these rules. Where there is no new slurm.conf in the history, the plan names each:
/// the text opens the two files in this state; and likewise behind a history that begins in a restored state in which no
/// node is gone.
pub fn saved_text_opens_the_state_again(alloc: Global, ctl: &Ctl) -> Result<Vec<u8>, SaveRefusal>
    ensures kept_read { (conf : ConfView) (file : AssocView) → IsKept (opening conf file) ctl.now.state
        → AreByRules ctl.now.state → IfOk result (λ text. IsSavedText text.items (saved_of ctl.now.state)) }
    ensures kept_opens { (conf : ConfView) (file : AssocView) → AreFiles conf file
        → IsKept (opening conf file) ctl.now.state → AreByRules ctl.now.state
        → All (λ (job : JobRecord). job.starts ≤ 4000000000) ctl.now.state.jobs
        → IfOk result (λ text. Restores conf file text.items (Ok (restored conf file (saved_of ctl.now.state)))) }
    ensures kept_same { (conf : ConfView) (file : AssocView) → AreFiles conf file
        → IsKept (opening conf file) ctl.now.state → AreByRules ctl.now.state
        → All (λ (job : JobRecord). job.starts ≤ 4000000000) ctl.now.state.jobs → NamesEachGone ctl.now.state
        → IfOk result (λ text. Restores conf file text.items
        (Ok (record ctl.now.state { size = 0; is_shut = false }))) }
    ensures kept_whole { (conf : ConfView) (file : AssocView) → AreFiles conf file
        → IsKept (opening conf file) ctl.now.state → AreByRules ctl.now.state
        → All (λ (job : JobRecord). job.starts ≤ 4000000000) ctl.now.state.jobs → ctl.now.state.gone ≡ []
        → IfOk result (λ text. Restores conf file text.items
        (Ok (record ctl.now.state { size = 0; is_shut = false }))) }
    ensures read { (conf : ConfView) (file : AssocView) (entries : List Entry) → AreFiles conf file
        → IsSound (opening conf file) → All (λ (e : Entry). KeepsRanges e.request × RequestByRules e.request) entries
        → ctl.now.state ≡ after_all (opening conf file) entries
        → IfOk result (λ text. IsSavedText text.items (saved_of ctl.now.state)) }
    ensures opens { (conf : ConfView) (file : AssocView) (entries : List Entry) → AreFiles conf file
        → IsSound (opening conf file) → All (λ (e : Entry). KeepsRanges e.request × RequestByRules e.request) entries
        → ctl.now.state ≡ after_all (opening conf file) entries
        → All (λ (job : JobRecord). job.starts ≤ 4000000000) ctl.now.state.jobs
        → IfOk result (λ text. Restores (in_force ctl.now.state) file text.items
        (Ok (restored (in_force ctl.now.state) file (saved_of ctl.now.state)))) }
    ensures same { (conf : ConfView) (file : AssocView) (entries : List Entry) → AreFiles conf file
        → IsSound (opening conf file) → All (λ (e : Entry). KeepsRanges e.request × RequestByRules e.request) entries
        → ctl.now.state ≡ after_all (opening conf file) entries
        → All (λ (job : JobRecord). job.starts ≤ 4000000000) ctl.now.state.jobs → NamesEachGone ctl.now.state
        → IfOk result (λ text. Restores (in_force ctl.now.state) file text.items
        (Ok (record ctl.now.state { size = 0; is_shut = false }))) }
    ensures whole { (conf : ConfView) (file : AssocView) (entries : List Entry) → AreFiles conf file
        → IsSound (opening conf file) → All (λ (e : Entry). KeepsRanges e.request × RequestByRules e.request) entries
        → All (λ (e : Entry). is_reconfigure e.request ≡ false) entries
        → ctl.now.state ≡ after_all (opening conf file) entries
        → All (λ (job : JobRecord). job.starts ≤ 4000000000) ctl.now.state.jobs
        → IfOk result (λ text. Restores conf file text.items
        (Ok (record ctl.now.state { size = 0; is_shut = false }))) }
    ensures again { (file : AssocView) (start : State) (entries : List Entry) → IsSound start → IsKeptOver file start
        → AreByRules start → start.gone ≡ []
        → All (λ (e : Entry). KeepsRanges e.request × RequestByRules e.request) entries
        → All (λ (e : Entry). is_reconfigure e.request ≡ false) entries → ctl.now.state ≡ after_all start entries
        → All (λ (job : JobRecord). job.starts ≤ 4000000000) ctl.now.state.jobs
        → IfOk result (λ text. Restores (in_force start) file text.items
        (Ok (record ctl.now.state { size = 0; is_shut = false }))) }
{
    what_is_in_force_stays_where_none_is_taken();
    what_is_kept_stays_kept();
    what_is_saved_comes_back();
    what_jobs_ask_for_stays_by_the_rules();
    let _ = ctl.cluster();
    saved_text(alloc, ctl)
}
