//! Why a text is none of a saved state.

use small_texts::memory_error;
use small_texts::memory_error::Memory;

/// Why a text is none of a saved state.
#[derive(Clone, Copy, Debug, PartialEq, Eq)]
pub enum SavedRefusal {
    /// The line of this number, counted from 1, is the first that is off its form or its place; 0 where the text is too
    /// long.
    BadSaved { line: u32 },
    Memory,
}

impl From<Memory> for SavedRefusal {
    ghost use Rattle.std.specs.Prelude.{◌≡◌};
    ghost use Rattle.state_save.specs.declared.refusal.SavedRefusal.TheVariants.{Memory};

    ghost from_gives = { λ _ e. e ≡ Memory };

    fn from(_error: memory_error::Memory) -> SavedRefusal {
        SavedRefusal::Memory
    }
}
