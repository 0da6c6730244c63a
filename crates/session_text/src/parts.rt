//! Words of a line, one or several.

ghost use Rattle.std.specs.Prelude.{◌≡◌, ◌<◌, length, take, drop, slice_get, option_copied, Some, IfOk, IsTrue};
ghost use Rattle.std.specs.List.{list_all};
ghost use Rattle.line_words.specs.Words.{is_word_byte};
ghost use Rattle.session_text.specs.Said.{end_word, is_command, last_word, lone_operand};

use line_words::words::Words;
use small_texts::memory_error::Memory;
use std::alloc::Global;

/// The last word, or an empty text.
pub(crate) fn last_word(words: &Words) -> &[u8]
    ensures { result.now ≡ last_word words.now }
{
    match words.get(words.len().saturating_sub(1)) {
        Some(word) => word,
        None => b"",
    }
}

/// The word behind the first, where there are just these two.
pub(crate) fn lone_operand(words: &Words) -> Option<&[u8]>
    ensures { option_copied result ≡ lone_operand words.now }
{
    if words.len() == 2 { words.get(1) } else { None }
}

/// Whether the first word is this one.
pub(crate) fn is_command(name: &[u8], words: &Words) -> bool
    ensures { result ≡ is_command name.now words.now }
{
    match words.get(0) {
        Some(word) => word == name,
        None => name.is_empty(),
    }
}

/// The word that ends a script, where a word is `<<` and that.
pub(crate) fn end_word(word: &[u8]) -> Option<&[u8]>
    ensures { option_copied result ≡ end_word word.now }
{
    match word {
        [a, b, end @ ..] if *a == b'<' && *b == b'<' => Some(end),
        _ => None,
    }
}

// The word at a place, counted from 0.
fn word_at(words: &Words, place: usize) -> &[u8]
    requires { place < length words.now }
    ensures value { slice_get words.now place ≡ Some result.now }
    ensures good { IsTrue (list_all is_word_byte result.now) }
{
    let _all = words.len();
    match words.get(place) {
        Some(word) => word,
        None => unreachable!(),
    }
}

/// A copy of so many words behind the first ones, at most.
pub(crate) fn part(
    alloc: Global,
    words: &Words,
    skipped: usize,
    count: usize,
) -> Result<Words, Memory>
    ensures { IfOk result (λ part. part ≡ take count (drop skipped words.now)) }
{
    let mut part = Words::new(alloc);
    let end = skipped.saturating_add(count).min(words.len());
    for place in skipped..end {
        let copy = Vec::from_slice(alloc, word_at(words, place))?;
        part.push(copy)?;
    }
    Ok(part)
}
