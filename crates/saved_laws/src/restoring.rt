//! Restoring what was saved gives the state back.

ghost use Rattle.std.specs.Prelude.{◌≡◌, ◌≤◌, ℕ, false, List, [], ◌++◌, All};
ghost use Rattle.plain_data.specs.Assocs.{AssocView};
ghost use Rattle.plain_data.specs.Confs.{ConfView};
ghost use Rattle.job_table.specs.declared.record.JobRecord.{JobRecord};
ghost use Rattle.command_words.specs.declared.header.Meaning.{Meaning};
ghost use Rattle.ctl_state.specs.Soundness.{IsSound};
ghost use Rattle.ctl_state.specs.State.{State, opening};
ghost use Rattle.ctl_desk.specs.declared.entry.Entry.{Entry};
ghost use Rattle.ctl_desk.specs.History.{after_all};
ghost use Rattle.ctl_saved.specs.Saving.{saved_of};
ghost use Rattle.ctl_restore.specs.Fits.{Fits};
ghost use Rattle.ctl_restore.specs.Restored.{restored};
ghost use Rattle.saved_laws.specs.Gone.{NamesEachGone};
ghost use Rattle.saved_laws.specs.Kept.{AreFiles, IsKept, IsKeptOver, in_force, is_reconfigure};
ghost use Rattle.saved_laws.specs.Rooms.{IsNoFuller};
ghost use Rattle.saved_laws.specs.Scripts.{AsksInRange, GoesOnFrom, HaveRoom, KeepConf, KeepsRanges};
ghost use Rattle.script_run.specs.Script.{state_behind_all, told_all};

use crate::keeping::{what_is_in_force_stays_where_none_is_taken, what_is_kept_stays_kept};

/// Restoring what was saved gives the state back. What is saved of a sound state with all that is kept fits the two
/// files that it was opened with, where no job was started more than 4,000,000,000 times, and the same is saved of what
/// is restored of it, which is sound, and of which all is kept. It is the state, but that the history takes no room yet
/// and no shutdown was accepted, where the plan names each node that is gone. It names each where none is gone, so behind
/// each script and each history of two files in which no new slurm.conf is taken, and in what is restored. Where it
/// doesn't, all else comes back just so, and the plan with places of its own for those that it names.
pub fn what_is_saved_comes_back()
    ensures fits { (conf : ConfView) (file : AssocView) (s : State) → AreFiles conf file → IsSound s
        → IsKept (opening conf file) s → All (λ (job : JobRecord). job.starts ≤ 4000000000) s.jobs
        → Fits conf file (saved_of s) }
    ensures state { (conf : ConfView) (file : AssocView) (s : State) → AreFiles conf file → IsSound s
        → IsKept (opening conf file) s → NamesEachGone s
        → restored conf file (saved_of s) ≡ record s { size = 0; is_shut = false } }
    ensures rest { (conf : ConfView) (file : AssocView) (s : State) → AreFiles conf file → IsSound s
        → IsKept (opening conf file) s
        → restored conf file (saved_of s)
        ≡ record s {
          plan = (restored conf file (saved_of s)).plan;
          gone = (restored conf file (saved_of s)).gone;
          size = 0;
          is_shut = false;
        } }
    ensures sound { (conf : ConfView) (file : AssocView) (s : State) → AreFiles conf file → IsSound s
        → IsKept (opening conf file) s → IsSound (restored conf file (saved_of s)) }
    ensures kept { (conf : ConfView) (file : AssocView) (s : State) → AreFiles conf file → IsSound s
        → IsKept (opening conf file) s → IsKept (opening conf file) (restored conf file (saved_of s)) }
    ensures over { (file : AssocView) (s : State) → IsSound s → IsKeptOver file s
        → IsKeptOver file (restored (in_force s) file (saved_of s)) }
    ensures named { (conf : ConfView) (file : AssocView) (s : State) → AreFiles conf file → IsSound s
        → IsKept (opening conf file) s → NamesEachGone (restored conf file (saved_of s)) }
    ensures again { (conf : ConfView) (file : AssocView) (s : State) → AreFiles conf file → IsSound s
        → IsKept (opening conf file) s → saved_of (restored conf file (saved_of s)) ≡ saved_of s }
    ensures none { (conf : ConfView) (file : AssocView) (s : State) → IsSound s → IsKept (opening conf file) s
        → s.gone ≡ [] → NamesEachGone s }
    ensures whole { (conf : ConfView) (file : AssocView) (s : State) → AreFiles conf file → IsSound s
        → IsKept (opening conf file) s → s.gone ≡ []
        → restored conf file (saved_of s) ≡ record s { size = 0; is_shut = false } }
    ensures script { (conf : ConfView) (file : AssocView) (script : List Meaning) (s : State) → AreFiles conf file
        → IsSound (opening conf file) → All AsksInRange script → KeepConf (opening conf file) script
        → state_behind_all (opening conf file) script ≡ s
        → restored conf file (saved_of s) ≡ record s { size = 0; is_shut = false } }
    ensures history { (conf : ConfView) (file : AssocView) (entries : List Entry) (s : State) → AreFiles conf file
        → IsSound (opening conf file) → All (λ (e : Entry). KeepsRanges e.request) entries
        → All (λ (e : Entry). is_reconfigure e.request ≡ false) entries → after_all (opening conf file) entries ≡ s
        → restored conf file (saved_of s) ≡ record s { size = 0; is_shut = false } }
{
    what_is_kept_stays_kept();
    what_is_in_force_stays_where_none_is_taken();
}

/// A script that is cut in two goes on as if it hadn't been: the state behind the first part is saved, and restored over
/// the slurm.conf in force and the same association file, and the next part is told as it would have been, if none of it
/// would have been refused for want of room in the history and the plan names each node that is gone. The states behind
/// both are the same, but for that room. It names each where the first part takes no new slurm.conf. So it is wherever the
/// first part begins: in any sound state of which all is kept and in which no node is gone, as in a restored one.
pub fn a_restored_controller_goes_on()
    ensures told { (conf : ConfView) (file : AssocView) (first next : List Meaning) (s : State) → AreFiles conf file
        → IsSound (opening conf file) → All AsksInRange first → state_behind_all (opening conf file) first ≡ s
        → s.is_shut ≡ false → NamesEachGone s → HaveRoom s next
        → told_all (opening conf file) (first ++ next)
        ≡ told_all (opening conf file) first ++ told_all (restored (in_force s) file (saved_of s)) next }
    ensures behind { (conf : ConfView) (file : AssocView) (first next : List Meaning) (s : State) → AreFiles conf file
        → IsSound (opening conf file) → All AsksInRange first → state_behind_all (opening conf file) first ≡ s
        → s.is_shut ≡ false → NamesEachGone s → HaveRoom s next
        → IsNoFuller (state_behind_all (opening conf file) (first ++ next))
        (state_behind_all (restored (in_force s) file (saved_of s)) next) }
    ensures whole { (conf : ConfView) (file : AssocView) (first next : List Meaning) (s : State) → AreFiles conf file
        → IsSound (opening conf file) → All AsksInRange first → KeepConf (opening conf file) first
        → state_behind_all (opening conf file) first ≡ s → s.is_shut ≡ false → HaveRoom s next
        → GoesOnFrom (restored conf file (saved_of s)) (opening conf file) first next }
    ensures again { (file : AssocView) (start : State) (first next : List Meaning) (s : State) → IsSound start
        → IsKeptOver file start → start.gone ≡ [] → All AsksInRange first → KeepConf start first
        → state_behind_all start first ≡ s → s.is_shut ≡ false → HaveRoom s next
        → GoesOnFrom (restored (in_force start) file (saved_of s)) start first next }
{
    what_is_kept_stays_kept();
    what_is_in_force_stays_where_none_is_taken();
}
