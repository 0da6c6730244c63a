//! Why a value is no good.

ghost use Rattle.std.specs.Prelude.{◌≡◌};
ghost use Rattle.text_values.specs.Refusal.{or_none};

use small_texts::memory_error::{self, Memory};
use small_texts::name::NameRefusal;
use std::alloc::{AllocError, AllocFailed};
use std::error::Error;
use std::fmt;

/// Why a text gave no value.
#[derive(Clone, Copy, Debug, PartialEq, Eq)]
pub enum ValueRefusal {
    /// It is off the grammar, or out of range.
    BadValue,
    Memory,
}

impl fmt::Display for ValueRefusal {
    ghost use Rattle.std.specs.Prelude.{Some};
    ghost use Rattle.text_values.specs.Refusal.{value_message};

    ghost output = { λ refusal. Some (value_message refusal) };

    fn fmt<W: fmt::Write>(&self, f: &mut fmt::Formatter<W>) -> fmt::Result {
        f.write_str(match self {
            ValueRefusal::BadValue => "bad value",
            ValueRefusal::Memory => "out of memory",
        })
    }
}

impl Error for ValueRefusal {}

impl From<Memory> for ValueRefusal {
    ghost use Rattle.std.specs.Prelude.{◌≡◌};
    ghost use Rattle.text_values.specs.declared.refusal.ValueRefusal.TheVariants.{Memory};

    ghost from_gives = { λ _ e. e ≡ Memory };

    fn from(_error: memory_error::Memory) -> ValueRefusal {
        ValueRefusal::Memory
    }
}

impl From<AllocError> for ValueRefusal {
    ghost use Rattle.std.specs.Prelude.{◌≡◌};
    ghost use Rattle.text_values.specs.declared.refusal.ValueRefusal.TheVariants.{Memory};

    ghost from_gives = { λ _ e. e ≡ Memory };

    fn from(_error: AllocError) -> ValueRefusal {
        ValueRefusal::Memory
    }
}

impl<T: Drop> From<AllocFailed<T>> for ValueRefusal {
    ghost use Rattle.std.specs.Prelude.{◌≡◌};
    ghost use Rattle.text_values.specs.declared.refusal.ValueRefusal.TheVariants.{Memory};

    ghost from_gives = { λ _ e. e ≡ Memory };

    fn from(_error: AllocFailed<T>) -> ValueRefusal {
        ValueRefusal::Memory
    }
}

impl From<NameRefusal> for ValueRefusal {
    ghost use Rattle.std.specs.Prelude.{◌≡◌};
    ghost use Rattle.text_values.specs.Refusal.{of_name};

    ghost from_gives = { λ name e. e ≡ of_name name };

    fn from(refusal: NameRefusal) -> ValueRefusal {
        match refusal {
            NameRefusal::BadName => ValueRefusal::BadValue,
            NameRefusal::Memory => ValueRefusal::Memory,
        }
    }
}

/// What was read, or None where the text is no good: want of memory stands apart.
pub fn or_none<T: Drop>(read: Result<T, ValueRefusal>) -> Result<Option<T>, Memory>
    ensures { result ≡ or_none read }
{
    match read {
        Ok(value) => Ok(Some(value)),
        Err(ValueRefusal::BadValue) => Ok(None),
        Err(ValueRefusal::Memory) => Err(Memory),
    }
}
