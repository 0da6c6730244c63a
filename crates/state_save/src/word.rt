//! What a value of a saved state is as a word.

ghost use Rattle.std.specs.Prelude.{◌≡◌, ℕ, List, Option, Some, None, ◌++◌, IfOk, OnOk, IsErrOf};
ghost use Rattle.state_save.specs.Texts.{optional};
ghost use Rattle.state_save.specs.Meanings.{optional_in};
ghost use Rattle.state_save.specs.Fitting.{FitsOptional};

use plain_data::boxed::Boxed;
use small_texts::memory_error::Memory;
use std::alloc::Global;
use text_values::refusal::ValueRefusal;

/// A value that is written as one word. What is read may be written otherwise: who reads a line writes its values again,
/// and compares.
pub trait Word: Drop {
    ghost use Rattle.std.specs.Prelude.{◌≡◌, ℕ, List, Option, Some, None, ◌++◌, IfOk, OnOk, IsErrOf};

    ghost text: { Self → List ℕ };

    ghost meaning: { List ℕ → Option Self };

    ghost fits: { Self → Type 0 };

    /// Writes the value at the end.
    fn push_word(&self, out: &mut Vec<u8>) -> Result<(), Memory>
        ensures { OnOk result (out.new.items ≡ out.old.items ++ text self.now) };

    /// The value that the word writes.
    fn read_word(alloc: Global, word: &[u8]) -> Result<Self, ValueRefusal>
        ensures value { IfOk result (λ value. meaning word.now ≡ Some value) }
        ensures refused { IsErrOf result ValueRefusal.BadValue → meaning word.now ≡ None };

    /// It does nothing: its contract tells that what is read fits.
    fn tell_fits()
        ensures { (word : List ℕ) (value : Self) → meaning word ≡ Some value → fits value };
}

impl<T: Word> Word for Option<T> {
    ghost text = { optional T.text };

    ghost meaning = { optional_in T.meaning };

    ghost fits = { FitsOptional T.fits };

    fn push_word(&self, out: &mut Vec<u8>) -> Result<(), Memory> {
        match self {
            Some(value) => value.push_word(out),
            None => Ok(()),
        }
    }

    fn read_word(alloc: Global, word: &[u8]) -> Result<Option<T>, ValueRefusal> {
        if word.is_empty() {
            return Ok(None);
        }
        let value = T::read_word(alloc, word)?;
        Ok(Some(value))
    }

    #[tactic(auto, using(crate::proofs::ListWords::optional_sound))]
    fn tell_fits() {
        T::tell_fits();
    }
}

impl<T: Word> Word for Boxed<T> {
    ghost text = { T.text };

    ghost meaning = { T.meaning };

    ghost fits = { T.fits };

    fn push_word(&self, out: &mut Vec<u8>) -> Result<(), Memory> {
        self.value().push_word(out)
    }

    fn read_word(alloc: Global, word: &[u8]) -> Result<Boxed<T>, ValueRefusal> {
        let value = T::read_word(alloc, word)?;
        let boxed = Boxed::new(alloc, value)?;
        Ok(boxed)
    }

    fn tell_fits() {
        T::tell_fits();
    }
}
