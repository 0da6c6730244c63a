//! Words of the form `KEY=VALUE`.

ghost use Rattle.std.specs.Prelude.{◌≡◌, ◌+◌, drop, Some, IfOk, option_map};
ghost use Rattle.operands.specs.BadWord.{good, given};
ghost use Rattle.operands.specs.Pairs.{pair_of, pair_added, pairs_say, now_said};

use crate::bad_word::{BadWord, WordKind, fault_at};
use line_words::words::Words;
use small_texts::memory_error::Memory;
use std::alloc::Global;
use text_values::arguments::equals_place;

/// What pairs of keys and values say together.
pub trait Pairs: Drop {
    ghost use Rattle.std.specs.Prelude.{◌≡◌, ℕ, List, Result, IfOk};
    ghost use Rattle.operands.specs.Pairs.{now_said};
    ghost use Rattle.text_values.specs.declared.word_refusal.WordKind.{WordKind};

    ghost adding: { Self → List ℕ → List ℕ → Result Self WordKind };

    /// Takes up what a pair says, or tells what is wrong with it; then what was said before may be lost.
    fn add(
        &mut self,
        alloc: Global,
        key: &[u8],
        value: &[u8],
    ) -> Result<Result<(), WordKind>, Memory>
        ensures { IfOk result (λ added. now_said added self.new ≡ adding self.old key.now value.now) };
}

/// Takes up a value in place of an earlier one, or tells that there is none that is good.
pub fn put<T: Drop>(place: &mut Option<T>, value: Option<T>) -> Result<(), WordKind>
    ensures { now_said result place.new ≡ given Some (good value) }
{
    match value {
        Some(value) => {
            *place = Some(value);
            Ok(())
        }
        None => Err(WordKind::BadValue),
    }
}

/// The key and the value of a word, which its first `=` parts.
#[tactic(auto, unfolding(crate::specs::Pairs::pair_of))]
pub fn cut_pair(word: &[u8]) -> Option<(&[u8], &[u8])>
    ensures { option_map (λ pair. (pair.0.now, pair.1.now)) result ≡ pair_of word.now }
{
    match equals_place(word) {
        Some(place) => Some((&word[..place], &word[place + 1..])),
        None => None,
    }
}

// Takes up what a word says, which must be a pair.
fn add_word<S: Pairs>(
    alloc: Global,
    said: &mut S,
    word: &[u8],
) -> Result<Result<(), WordKind>, Memory>
    ensures { IfOk result (λ added. now_said added said.new ≡ pair_added S.adding said.old (pair_of word.now)) }
{
    match cut_pair(word) {
        Some((key, value)) => said.add(alloc, key, value),
        None => Ok(Err(WordKind::StrayWord)),
    }
}

/// What the words from a place on say together, on top of what was said before.
pub fn read_pairs<S: Pairs>(
    alloc: Global,
    said: S,
    words: &Words,
    first: usize,
) -> Result<Result<S, BadWord>, Memory>
    ensures { IfOk result (λ all. all ≡ pairs_say S.adding (first + 1) said (drop first words.now)) }
{
    let mut said = said;
    for place in first..words.len() {
        match add_word(alloc, &mut said, words.get(place).unwrap())? {
            Ok(()) => {}
            Err(kind) => return Ok(Err(fault_at(place, kind))),
        }
    }
    Ok(Ok(said))
}
