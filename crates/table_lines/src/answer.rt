// The text of an answer, and why there is none.
ghost use Rattle.std.specs.Prelude.{◌≡◌, ◌++◌, codes, IfOk, OnOk, IfSome};

use small_texts::memory_error::Memory;
use small_texts::name::NameRefusal;
use std::alloc::{AllocError, AllocFailed, Global};
use std::fmt::Display;

/// Why a line has no answer.
#[derive(Clone, Copy)]
pub enum Unanswered {
    /// No such function, or other arguments than it takes.
    Arguments,
    Memory,
}

impl From<AllocError> for Unanswered {
    fn from(_error: AllocError) -> Unanswered {
        Unanswered::Memory
    }
}

impl<T: Drop> From<AllocFailed<T>> for Unanswered {
    fn from(_error: AllocFailed<T>) -> Unanswered {
        Unanswered::Memory
    }
}

impl From<Memory> for Unanswered {
    fn from(_error: Memory) -> Unanswered {
        Unanswered::Memory
    }
}

impl From<NameRefusal> for Unanswered {
    fn from(refusal: NameRefusal) -> Unanswered {
        match refusal {
            NameRefusal::Memory => Unanswered::Memory,
            NameRefusal::BadName => Unanswered::Arguments,
        }
    }
}

/// Puts a value's text behind an answer.
pub fn push<T: Display>(out: &mut Vec<u8>, value: &T) -> Result<(), Unanswered>
    ensures { OnOk result (IfSome (T.output value.now) (λ text. out.new.items ≡ out.old.items ++ text)) }
{
    let text = format!(in *out.allocator(); "{value}")?;
    out.extend_from_slice(text.as_bytes())?;
    Ok(())
}

/// The answer of a call that took what it was given.
pub fn taken<T: Display>(alloc: Global, value: &T) -> Result<Vec<u8>, Unanswered>
    ensures { IfOk result (λ out. IfSome (T.output value.now) (λ text. out.items ≡ text)) }
{
    let text = format!(in alloc; "{value}")?;
    Ok(Vec::from_slice(alloc, text.as_bytes())?)
}

/// The answer of a call that refused what it was given.
pub fn refused<E: Display>(alloc: Global, refusal: &E) -> Result<Vec<u8>, Unanswered>
    ensures { IfOk result (λ out. IfSome (E.output refusal.now) (λ text. out.items ≡ codes "refused: " ++ text)) }
{
    let text = format!(in alloc; "refused: {refusal}")?;
    Ok(Vec::from_slice(alloc, text.as_bytes())?)
}
