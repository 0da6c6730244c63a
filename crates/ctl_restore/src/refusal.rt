//! Why a saved state gives no controller.

use small_texts::memory_error;
use std::alloc::{AllocError, AllocFailed};
use std::error::Error;
use std::fmt;

/// Why a saved state gives no controller.
#[derive(Clone, Copy, PartialEq, Eq, Debug)]
pub enum RestoreRefusal {
    /// It isn't that of a cluster of these two files.
    Unfit,
    Memory,
}

impl fmt::Display for RestoreRefusal {
    ghost use Rattle.std.specs.Prelude.{Some};
    ghost use Rattle.ctl_restore.specs.Refusals.{restore_message};

    ghost output = { λ refusal. Some (restore_message refusal) };

    fn fmt<W: fmt::Write>(&self, f: &mut fmt::Formatter<W>) -> fmt::Result {
        f.write_str(match self {
            RestoreRefusal::Unfit => "the saved state doesn't fit",
            RestoreRefusal::Memory => "out of memory",
        })
    }
}

impl Error for RestoreRefusal {}

impl From<AllocError> for RestoreRefusal {
    ghost use Rattle.std.specs.Prelude.{◌≡◌};
    ghost use Rattle.ctl_restore.specs.declared.refusal.RestoreRefusal.TheVariants.{Memory};

    ghost from_gives = { λ _ refusal. refusal ≡ Memory };

    fn from(_error: AllocError) -> RestoreRefusal {
        RestoreRefusal::Memory
    }
}

impl<T: Drop> From<AllocFailed<T>> for RestoreRefusal {
    ghost use Rattle.std.specs.Prelude.{◌≡◌};
    ghost use Rattle.ctl_restore.specs.declared.refusal.RestoreRefusal.TheVariants.{Memory};

    ghost from_gives = { λ _ refusal. refusal ≡ Memory };

    fn from(_error: AllocFailed<T>) -> RestoreRefusal {
        RestoreRefusal::Memory
    }
}

impl From<memory_error::Memory> for RestoreRefusal {
    ghost use Rattle.std.specs.Prelude.{◌≡◌};
    ghost use Rattle.ctl_restore.specs.declared.refusal.RestoreRefusal.TheVariants.{Memory};

    ghost from_gives = { λ _ refusal. refusal ≡ Memory };

    fn from(_error: memory_error::Memory) -> RestoreRefusal {
        RestoreRefusal::Memory
    }
}
