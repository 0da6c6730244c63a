//! What an input that isn't answered to its end comes to.

ghost use Rattle.std.specs.Prelude.{◌≡◌, ◌⊎◌, ℕ, Bool, List, Option, Some};
ghost use Rattle.ctl_session.specs.declared.session.How.{How};
ghost use Rattle.ctl_state.specs.State.{State};
ghost use Rattle.plain_data.specs.declared.period.Period.{Period};
ghost use Rattle.session_laws.specs.ScriptInputs.{IsBroken, IsToldAt, IsTooLong, rest_begins};
ghost use Rattle.script_run.specs.Behind.{IsScriptRun};
ghost use Rattle.slurm_io.specs.Faults.{CountsNone};
ghost use Rattle.slurm_io.specs.Wire.{Wire};

use block_frame::{
    bad_texts_stay, blocks_are_cut_once, blocks_go_first, kinds_are_apart, nothing_is_partial,
    texts_are_cut,
};
use ctl_session::How;

/// Where the input has what is no block, behind fewer blocks than one session answers, the script's run ends there, unless
/// a count of faults rises or memory is wanting; and it ends at a place only there.
pub fn broken_inputs_are_told()
    ensures there { (s : State) (sacct : Option Period) (save : Bool) (old new : Wire) (how : How) (bytes : List ℕ)
        → old.left ≡ Some bytes → IsBroken bytes
        → CountsNone old.reads new.reads → CountsNone old.writes new.writes
        → IsScriptRun s sacct save old new how → IsToldAt (rest_begins bytes) how ⊎ (how ≡ How.Memory) }
    ensures only { (s : State) (sacct : Option Period) (save : Bool) (old new : Wire) (how : How) (bytes : List ℕ)
        (place : ℕ) → old.left ≡ Some bytes → IsScriptRun s sacct save old new how → IsToldAt place how
        → IsBroken bytes × (place ≡ rest_begins bytes) }
{
    texts_are_cut();
    blocks_go_first();
    blocks_are_cut_once();
    kinds_are_apart();
    bad_texts_stay();
    nothing_is_partial();
}

/// Where the input has more than one session answers, or leads to a state that is to be saved and has too long a text, the
/// script's run ends with that, unless a count of faults rises or memory is wanting; and only there.
pub fn longer_inputs_are_spent()
    ensures there { (s : State) (sacct : Option Period) (save : Bool) (old new : Wire) (how : How) (bytes : List ℕ)
        → old.left ≡ Some bytes → IsTooLong s save bytes
        → CountsNone old.reads new.reads → CountsNone old.writes new.writes
        → IsScriptRun s sacct save old new how → (how ≡ How.Spent) ⊎ (how ≡ How.Memory) }
    ensures only { (s : State) (sacct : Option Period) (save : Bool) (old new : Wire) (bytes : List ℕ)
        → old.left ≡ Some bytes → IsScriptRun s sacct save old new How.Spent → IsTooLong s save bytes }
{
    texts_are_cut();
    blocks_go_first();
    blocks_are_cut_once();
    kinds_are_apart();
    bad_texts_stay();
    nothing_is_partial();
}
