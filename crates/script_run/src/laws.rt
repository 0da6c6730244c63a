//! What holds of every run of a script.

ghost use Rattle.std.specs.Prelude.{◌≡◌, ◌⊎◌, ◌≤◌, ℕ, List, Option, Some, Bool, [], length};
ghost use Rattle.block_frame.specs.declared.form.Form.TheVariants.{Plain};
ghost use Rattle.block_frame.specs.Grammar.{blocks_of, rest_of};
ghost use Rattle.ctl_desk.specs.History.{present};
ghost use Rattle.ctl_session.specs.declared.session.How.{How};
ghost use Rattle.ctl_session.specs.Session.{most_blocks};
ghost use Rattle.ctl_state.specs.State.{State};
ghost use Rattle.plain_data.specs.declared.period.Period.{Period};
ghost use Rattle.saved_data.specs.Sizes.{longest_text};
ghost use Rattle.script_run.specs.Behind.{IsScriptRun, saved_if};
ghost use Rattle.script_run.specs.Script.{script_history};
ghost use Rattle.slurm_io.specs.Faults.{CountsNone};
ghost use Rattle.slurm_io.specs.Wire.{Wire};

use block_frame::{
    bad_texts_stay, blocks_are_cut_once, blocks_go_first, kinds_are_apart, nothing_is_partial,
    texts_are_cut,
};

/// The script of an input of whole blocks, no more than one session answers, is answered to its end, and what is asked for
/// is written behind it, unless a count of faults rises, memory is wanting, or the state's text is longer than one may be.
pub fn whole_inputs_are_answered()
    ensures { (s : State) (sacct : Option Period) (save : Bool) (old new : Wire) (how : How) (bytes : List ℕ)
        → old.left ≡ Some bytes → rest_of Plain bytes ≡ [] → length (blocks_of Plain bytes) ≤ most_blocks
        → length (saved_if save (present (script_history s bytes))) ≤ longest_text
        → CountsNone old.reads new.reads → CountsNone old.writes new.writes
        → IsScriptRun s sacct save old new how → (how ≡ How.Closed) ⊎ (how ≡ How.Memory) }
{
    texts_are_cut();
    blocks_go_first();
    blocks_are_cut_once();
    kinds_are_apart();
    bad_texts_stay();
    nothing_is_partial();
}
