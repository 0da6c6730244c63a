//! Words that a command takes one after the other.

ghost use Rattle.std.specs.Prelude.{◌≡◌, ◌+◌};
ghost use Rattle.operands.specs.BadWord.{at_word, good};
ghost use Rattle.operands.specs.Operands.{word_at, closed_at, word_read};

use crate::bad_word::{BadWord, WordKind, fault_at};
use line_words::words::Words;

/// The word at a place, counted from 0, which must be there.
#[tactic(auto, unfolding(crate::specs::Operands::word_at))]
pub fn word_at(words: &Words, place: usize) -> Result<&[u8], BadWord>
    ensures { word_read result ≡ word_at words.now place }
{
    match words.get(place) {
        Some(word) => Ok(word),
        None => Err(fault_at(place, WordKind::MissingWord)),
    }
}

/// What is asked, where no word is left at a place.
#[tactic(auto, unfolding(crate::specs::Operands::closed_at))]
pub fn closed_at<T: Drop>(words: &Words, place: usize, asked: T) -> Result<T, BadWord>
    ensures { result ≡ closed_at words.now place asked }
{
    if place < words.len() {
        Err(fault_at(place, WordKind::StrayWord))
    } else {
        Ok(asked)
    }
}

/// The value of the word at a place, or its fault.
pub fn good_at<T: Drop>(place: usize, value: Option<T>) -> Result<T, BadWord>
    ensures { result ≡ at_word (place + 1) (good value) }
{
    match value {
        Some(value) => Ok(value),
        None => Err(fault_at(place, WordKind::BadValue)),
    }
}
