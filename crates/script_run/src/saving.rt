//! The text of a state that is saved.

ghost use Rattle.std.specs.Prelude.{◌≡◌, ◌<◌, ◌≤◌, IfOk, OnOk, IsErrOf, length};
ghost use Rattle.cluster_opening.specs.Restoring.{IsSavedText};
ghost use Rattle.ctl_saved.specs.Saving.{StandsInOrder, saved_of};
ghost use Rattle.saved_data.specs.Sizes.{longest_text};
ghost use Rattle.state_save.specs.Savable.{IsSavable};
ghost use Rattle.script_run.specs.Behind.{AreByRules, saved_state};

use ctl_core::controller::Ctl;
use ctl_saved::saved;
use saved_data::saved::Saved;
use saved_rules::tell_savable;
use small_texts::memory_error;
use small_texts::memory_error::Memory;
use state_save::write_saved;
use std::alloc::Global;

/// How many bytes the text of a saved state has at most (own).
const LONGEST_TEXT: usize = 268_435_456;

/// Why a state isn't saved.
#[derive(Clone, Copy, Debug, PartialEq, Eq)]
pub enum SaveRefusal {
    /// Its text would be longer than one may be.
    TooLong,
    Memory,
}

impl From<memory_error::Memory> for SaveRefusal {
    ghost use Rattle.std.specs.Prelude.{◌≡◌};
    ghost use Rattle.script_run.specs.declared.saving.SaveRefusal.TheVariants.{Memory};

    ghost from_gives = { λ _ e. e ≡ Memory };

    fn from(_error: memory_error::Memory) -> SaveRefusal {
        SaveRefusal::Memory
    }
}

// What is saved of a controller's state. Where that is in order and by the rules, it has a text that is read again.
fn saved_by_rules(alloc: Global, ctl: &Ctl) -> Result<Saved, Memory>
    ensures saved { IfOk result (λ saved. saved ≡ saved_of ctl.now.state) }
    ensures savable { OnOk result (StandsInOrder ctl.now.state → AreByRules ctl.now.state
        → IsSavable (saved_of ctl.now.state)) }
{
    let saved = saved(alloc, ctl)?;
    tell_savable(&saved);
    Ok(saved)
}

// The text of a controller's state, however long.
#[tactic(auto, unfolding(crate::specs::Behind::saved_state))]
fn text_of(alloc: Global, ctl: &Ctl) -> Result<Vec<u8>, Memory>
    ensures text { IfOk result (λ text. text.items ≡ saved_state ctl.now.state) }
    ensures savable { OnOk result (StandsInOrder ctl.now.state → AreByRules ctl.now.state
        → IsSavable (saved_of ctl.now.state)) }
{
    let saved = saved_by_rules(alloc, ctl)?;
    let text = write_saved(alloc, &saved)?;
    Ok(text)
}

/// The text of a controller's state, from which a cluster can go on: it is read again as what was saved, where the state
/// stands in order and what its jobs ask for is by the rules of sbatch(1), as they do along every history. Linear in what
/// is kept and in the text.
#[tactic(auto, unfolding(saved_data::specs::Sizes::longest_text))]
pub fn saved_text(alloc: Global, ctl: &Ctl) -> Result<Vec<u8>, SaveRefusal>
    ensures text { IfOk result (λ text. text.items ≡ saved_state ctl.now.state) }
    ensures read { IfOk result (λ text. StandsInOrder ctl.now.state → AreByRules ctl.now.state
        → IsSavedText text.items (saved_of ctl.now.state)) }
    ensures short { IfOk result (λ text. length (saved_state ctl.now.state) ≤ longest_text) }
    ensures long { IsErrOf result SaveRefusal.TooLong → longest_text < length (saved_state ctl.now.state) }
{
    let text = text_of(alloc, ctl)?;
    if text.len() > LONGEST_TEXT {
        return Err(SaveRefusal::TooLong);
    }
    Ok(text)
}
