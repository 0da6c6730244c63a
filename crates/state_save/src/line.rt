//! What the members of a saved state are as lines.

ghost use Rattle.std.specs.Prelude.{◌≡◌, ◌≢◌, ◌==◌, ◌↔◌, ◌++◌, ◌∷◌, [], ℕ, List, ◌+◌, ◌-◌, ◌^◌, ◌<◌, ◌≤◌, Some, None, All, AllPairs, IfOk, IfSome, IfNone, OnOk, IsTrue, length, drop, position};
ghost use Rattle.std.specs.Str.{byte};
ghost use Rattle.line_words.specs.Words.{are_words, first_bad, quoted_words, words_in};
ghost use Rattle.state_save.specs.Reading.{lines_of};
ghost use Rattle.state_save.specs.Saved.{line_text};
ghost use Rattle.state_save.specs.Lines.{Reads, FollowsLast, IsNextLine, AreEnded, AreLinesRead};

use crate::writer::Writer;
use line_words::words::{Words, WordsRefusal, split_words};
use plain_data::items::Items;
use small_texts::memory_error::Memory;
use std::alloc::Global;
use text_values::refusal::{ValueRefusal, or_none};

/// A member of a saved state, as a line of words.
pub trait Line: Drop {
    ghost use Rattle.std.specs.Prelude.{◌≡◌, ◌≢◌, ◌↔◌, ◌++◌, ℕ, List, IfOk, OnOk, IsTrue};
    ghost use Rattle.line_words.specs.Words.{are_words};
    ghost use Rattle.state_save.specs.Saved.{line_text};
    ghost use Rattle.state_save.specs.Lines.{Reads};

    ghost words: { Self → List (List ℕ) };

    ghost fits: { Self → Type 0 };

    ghost follows: { Self → Self → Type 0 };

    /// Writes its line.
    fn push_line(&self, writer: &mut Writer) -> Result<(), Memory>
        ensures { OnOk result (writer.new ≡ writer.old ++ line_text (words self.now)) };

    /// The member whose line has these words; of other words another member may be read.
    fn read_words(alloc: Global, line: &Words) -> Result<Self, ValueRefusal>
        ensures fit { IfOk result fits }
        ensures only { (value : Self) → fits value → words value ≡ line.now → Reads value result };

    /// Whether it may stand behind another.
    fn may_follow(&self, before: &Self) -> bool
        ensures { IsTrue result ↔ follows before.now self.now };

    /// It does nothing: its contract tells what words its lines have, and that their order has a direction.
    fn tell_lines()
        ensures words { (value : Self) → fits value → IsTrue (are_words (words value)) }
        ensures order { (one other third : Self) → follows one other → follows other third → follows one third };
}

// The words of a line without its end, where it has any.
fn split_line(alloc: Global, body: &[u8]) -> Result<Option<Words>, Memory>
    requires { length body.now < 2 ^ 32 }
    ensures some { IfOk result (λ found. IfSome found (λ words. words ≡ words_in body.now)) }
    ensures none { IfOk result (λ found. IfNone found (first_bad body.now ≢ None)) }
{
    match split_words(alloc, body) {
        Ok(words) => Ok(Some(words)),
        Err(WordsRefusal::BadWords { place: _place }) => Ok(None),
        Err(WordsRefusal::BadWord { place: _ }) => Ok(None),
        Err(WordsRefusal::Memory) => Err(Memory),
    }
}

// The member whose line has these words.
fn value_of<T: Line>(alloc: Global, words: &Words) -> Result<Option<T>, Memory>
    ensures fit { IfOk result (λ found. IfSome found T.fits) }
    ensures only { (value : T) → T.fits value → T.words value ≡ words.now → IfOk result (λ found. found ≡ Some value) }
{
    or_none(T::read_words(alloc, words))
}

// The member whose line this is, without its end.
fn read_body<T: Line>(alloc: Global, body: &[u8]) -> Result<Option<T>, Memory>
    requires { length body.now < 2 ^ 32 }
    ensures fit { IfOk result (λ found. IfSome found T.fits) }
    ensures only { (value : T) → T.fits value → quoted_words (T.words value) ≡ body.now
        → IfOk result (λ found. found ≡ Some value) }
{
    T::tell_lines();
    let found = split_line(alloc, body)?;
    match found {
        Some(words) => value_of(alloc, &words),
        None => Ok(None),
    }
}

// Whether the line is that of the member.
fn is_line_of<T: Line>(alloc: Global, value: &T, line: &[u8]) -> Result<bool, Memory>
    ensures { IfOk result (λ same. IsTrue same ↔ (line_text (T.words value.now) ≡ line.now)) }
{
    let mut writer = Writer::new(alloc);
    value.push_line(&mut writer)?;
    Ok(writer.as_text() == line)
}

// The member, if the line is its own.
fn keep_if_line<T: Line>(alloc: Global, value: T, line: &[u8]) -> Result<Option<T>, Memory>
    ensures some { IfOk result (λ found. IfSome found (λ kept. (kept ≡ value) × (line_text (T.words kept) ≡ line.now))) }
    ensures kept { line_text (T.words value) ≡ line.now → IfOk result (λ found. found ≡ Some value) }
{
    if is_line_of(alloc, &value, line)? {
        Ok(Some(value))
    } else {
        Ok(None)
    }
}

/// The member whose line this is, with its end. Linear in the line.
pub fn read_line<T: Line>(alloc: Global, line: &[u8]) -> Result<Option<T>, Memory>
    requires { length line.now < 2 ^ 32 }
    ensures some { IfOk result (λ found. IfSome found (λ value. T.fits value × (line_text (T.words value) ≡ line.now))) }
    ensures only { (value : T) → T.fits value → line_text (T.words value) ≡ line.now
        → IfOk result (λ found. found ≡ Some value) }
{
    let body = line.split_at(line.len().saturating_sub(1)).0;
    let found = read_body::<T>(alloc, body)?;
    match found {
        Some(value) => keep_if_line(alloc, value, line),
        None => Ok(None),
    }
}

// Where the first line ends.
fn end_of(text: &[u8]) -> Option<usize>
    ensures value { result ≡ position (λ b. b == byte "\n") text.now }
    ensures bound { IfSome result (λ at. at < length text.now) }
{
    text.iter().position(|b| *b == b'\n')
}

/// The first line of a text, with its end, and what follows it.
pub fn first_line(text: &[u8]) -> (&[u8], &[u8])
    ensures lines { 0 < length text.now → lines_of text.now ≡ result.0.now ∷ lines_of result.1.now }
    ensures within { length result.0.now ≤ length text.now }
    ensures shorter { 0 < length text.now → length result.1.now < length text.now }
{
    match end_of(text) {
        Some(at) => text.split_at(at + 1),
        None => (text, &[]),
    }
}

// Whether a member may stand behind the last of these.
fn follows_last<T: Line>(before: &[T], value: &T) -> bool
    ensures { IsTrue result ↔ FollowsLast T.follows before.now value.now }
{
    match before.last() {
        Some(last) => value.may_follow(last),
        None => true,
    }
}

/// The member of the first line, where it may stand behind these, and what follows.
pub fn next_line<'a, T: Line>(
    alloc: Global,
    before: &[T],
    text: &'a [u8],
) -> Result<Option<(T, &'a [u8])>, Memory>
    requires order { AllPairs T.follows before.now }
    requires short { length text.now < 2 ^ 32 }
    ensures some { IfOk result (λ found. IfSome found (λ next.
        IsNextLine (λ x. line_text (T.words x)) T.fits T.follows before.now text.now next.0 next.1.now)) }
    ensures none { IfOk result (λ found. IfNone found
        (AreEnded (λ x. line_text (T.words x)) T.fits T.follows before.now text.now)) }
{
    if text.is_empty() {
        return Ok(None);
    }
    T::tell_lines();
    let (line, rest) = first_line(text);
    let found = read_line::<T>(alloc, line)?;
    match found {
        Some(value) => {
            if follows_last(before, &value) {
                Ok(Some((value, rest)))
            } else {
                Ok(None)
            }
        }
        None => Ok(None),
    }
}

/// The members with whose lines a text begins, and what follows them.
#[tactic(auto, using(crate::proofs::LineSteps::line_steps))]
pub fn read_lines<T: Line>(alloc: Global, text: &[u8]) -> Result<(Items<T>, &[u8]), Memory>
    requires { length text.now < 2 ^ 32 }
    ensures { IfOk result (λ read.
        AreLinesRead (λ x. line_text (T.words x)) T.fits T.follows text.now read.0 read.1.now) }
{
    let mut values = Vec::new(alloc);
    let mut rest = text;
    while let Some((value, others)) = next_line::<T>(alloc, values.as_slice(), rest)? {
        values.push(value)?;
        rest = others;
    }
    Ok((Items::from_vec(values), rest))
}
