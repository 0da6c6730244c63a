//! What is wrong with a command's words.

ghost use Rattle.std.specs.Prelude.{◌≡◌, ◌+◌};
ghost use Rattle.operands.specs.BadWord.{at_word};
ghost use Rattle.text_values.specs.WordRefusal.{told};

pub use text_values::word_refusal::WordKind;
use text_values::word_refusal::told;

/// The first bad word of a command. Words count from 1, which is the command's name; a word that is missing has the
/// number after the last, and one that 32 bits don't hold is told as the greatest.
#[derive(Clone, Copy, PartialEq, Eq, Debug)]
pub struct BadWord {
    pub word: u32,
    pub kind: WordKind,
}

/// A fault of the word at a place, counted from 0.
pub fn fault_at(place: usize, kind: WordKind) -> BadWord
    ensures { result ≡ record { word = told (place + 1); kind = kind } }
{
    BadWord {
        word: told(place.saturating_add(1)),
        kind,
    }
}

/// A fault of the word of a number, counted from 1.
pub fn fault_of(number: usize, kind: WordKind) -> BadWord
    ensures { result ≡ record { word = told number; kind = kind } }
{
    BadWord {
        word: told(number),
        kind,
    }
}

/// What the word of a number gives, or its fault.
pub fn at_word<T: Drop>(number: usize, value: Result<T, WordKind>) -> Result<T, BadWord>
    ensures { result ≡ at_word number value }
{
    match value {
        Ok(value) => Ok(value),
        Err(kind) => Err(fault_of(number, kind)),
    }
}
