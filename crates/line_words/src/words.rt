//! Words of a line.

ghost use Rattle.std.specs.Prelude.{ℕ, ◌≡◌, ◌↔◌, ◌<◌, ◌≤◌, ◌^◌, ◌∷◌, [], ◌++◌, if◌then◌else◌, length, map, position, not, is_ok, IfOk, IfSome, OnOk, IsErrOf, IsTrue, Some, None, slice_get, option_copied, string_bytes};
ghost use Rattle.std.specs.List.{list_all};
ghost use Rattle.line_words.specs.Words.{mode_after, mode_outside, written, ends_word, begins_comment, before_comment, opens, may_end, open_place, words_in, first_bad, first_bad_word, quoted, quoted_words, is_word_byte, is_bare, is_bare_byte, double_quoted, are_words};

use small_texts::memory_error;
use small_texts::memory_error::Memory;
use std::alloc::{AllocError, AllocFailed, Global};
use std::error::Error;
use std::marker::Model;
use std::{fmt, mem, slice};

/// Words of a command: a list of texts, each byte of them a tab or from 0x20 to 0x7E (own).
#[derive(Drop)]
pub struct Words {
    words: Vec<Vec<u8>>,
}

impl Model for Words {
    ghost use Rattle.std.specs.Prelude.{List, ℕ, map, IsTrue};
    ghost use Rattle.line_words.specs.Words.{are_words};

    ghost Value = { List (List ℕ) };

    ghost view = { λ w. map (λ word. word.items) w.words.items };

    ghost invariant = { λ w. IsTrue (are_words (map (λ word. word.items) w.words.items)) };
}

/// Why a line or a list gave no words.
#[derive(Clone, Copy, Debug, PartialEq, Eq)]
pub enum WordsRefusal {
    /// The line has a bad byte at this place, counted in bytes from 0, or a quote or backslash there that stays open.
    BadWords { place: u32 },
    /// The text at this place of the list, counted from 0, has a byte that no word may have.
    BadWord { place: u32 },
    Memory,
}

impl fmt::Display for WordsRefusal {
    ghost use Rattle.std.specs.Prelude.{Some};
    ghost use Rattle.line_words.specs.Refusals.{words_message};

    ghost output = { λ refusal. Some (words_message refusal) };

    fn fmt<W: fmt::Write>(&self, f: &mut fmt::Formatter<W>) -> fmt::Result {
        match self {
            WordsRefusal::BadWords { place } => write!(f, "bad words at byte {place}"),
            WordsRefusal::BadWord { place } => write!(f, "bad byte in word {place}"),
            WordsRefusal::Memory => write!(f, "out of memory"),
        }
    }
}

impl Error for WordsRefusal {}

impl From<AllocError> for WordsRefusal {
    ghost use Rattle.std.specs.Prelude.{◌≡◌};
    ghost use Rattle.line_words.specs.declared.words.WordsRefusal.TheVariants.{Memory};

    ghost from_gives = { λ _ e. e ≡ Memory };

    fn from(_error: AllocError) -> WordsRefusal {
        WordsRefusal::Memory
    }
}

impl<T: Drop> From<AllocFailed<T>> for WordsRefusal {
    ghost use Rattle.std.specs.Prelude.{◌≡◌};
    ghost use Rattle.line_words.specs.declared.words.WordsRefusal.TheVariants.{Memory};

    ghost from_gives = { λ _ e. e ≡ Memory };

    fn from(_error: AllocFailed<T>) -> WordsRefusal {
        WordsRefusal::Memory
    }
}

impl From<Memory> for WordsRefusal {
    ghost use Rattle.std.specs.Prelude.{◌≡◌};
    ghost use Rattle.line_words.specs.declared.words.WordsRefusal.TheVariants.{Memory};

    ghost from_gives = { λ _ e. e ≡ Memory };

    fn from(_error: memory_error::Memory) -> WordsRefusal {
        WordsRefusal::Memory
    }
}

impl Words {
    ghost use Rattle.std.specs.Prelude.{◌≡◌, ◌↔◌, ◌≤◌, ◌∷◌, [], ◌++◌, if◌then◌else◌, length, map, is_ok, IsTrue, Some, drop, slice_get, option_copied};
    ghost use Rattle.std.specs.List.{list_all};
    ghost use Rattle.std.specs.Slice.Iter.{iter_rest};
    ghost use Rattle.line_words.specs.Words.{are_words, is_word_byte};

    /// No words.
    pub fn new(alloc: Global) -> Words
        ensures { result ≡ [] }
    {
        Words {
            words: Vec::new(alloc),
        }
    }

    /// How many words there are.
    pub fn len(&self) -> usize
        ensures value { result ≡ length self.now }
        ensures good { IsTrue (are_words self.now) }
    {
        self.words.len()
    }

    /// Whether there are no words.
    pub fn is_empty(&self) -> bool
        ensures { IsTrue result ↔ (self.now ≡ []) }
    {
        self.words.is_empty()
    }

    /// The words, one after the other.
    pub fn iter(&self) -> slice::Iter<'_, Vec<u8>>
        ensures { map (λ word. word.items) (iter_rest result) ≡ self.now }
    {
        self.words.iter()
    }

    /// The word at a place, counted from 0.
    pub fn get(&self, place: usize) -> Option<&[u8]>
        ensures { option_copied result ≡ slice_get self.now place }
    {
        Some(self.words.get(place)?.as_slice())
    }

    /// Puts a word behind the others.
    pub fn push(&mut self, word: Vec<u8>) -> Result<(), Memory>
        requires { IsTrue (list_all is_word_byte word.items) }
        ensures { self.new ≡ (if is_ok result then self.old ++ word.items ∷ [] else self.old) }
    {
        self.words.push(word)?;
        Ok(())
    }

    /// Drops the first words, at a cost of one step for each word. It is done by reversals, as the words' own `drain`
    /// clears a room of 131 KB on the stack at each call: a tenth of what a submission cost.
    #[tactic(auto, using(crate::proofs::WordLemmas::dropping))]
    pub fn drop_first(&mut self, count: usize)
        requires { count ≤ length self.old }
        ensures { self.new ≡ drop count self.old }
    {
        let kept = self.words.len() - count;
        self.words.reverse();
        self.words.truncate(kept);
        self.words.reverse();
    }
}

impl<'a> IntoIterator for &'a Words {
    ghost use Rattle.std.specs.Prelude.{◌≡◌, map};
    ghost use Rattle.std.specs.Slice.Iter.{iter_rest};

    type Item = &'a Vec<u8>;

    type IntoIter = slice::Iter<'a, Vec<u8>>;

    ghost into_iter_gives = { λ words it. map (λ word. word.items) (iter_rest it) ≡ words.now };

    fn into_iter(self) -> Self::IntoIter {
        self.iter()
    }
}

// Where a line stands as it is read from the left.
#[derive(Clone, Copy)]
enum Mode {
    Between,
    Plain,
    Escaped,
    Single,
    Double,
    DoubleEscaped,
}

fn mode_outside(b: u8) -> Mode
    ensures { result ≡ mode_outside b }
{
    match b {
        b' ' | b'\t' => Mode::Between,
        b'\'' => Mode::Single,
        b'"' => Mode::Double,
        b'\\' => Mode::Escaped,
        _ => Mode::Plain,
    }
}

impl Mode {
    ghost use Rattle.std.specs.Prelude.{◌≡◌};
    ghost use Rattle.line_words.specs.Words.{mode_after, opens, may_end, ends_word, begins_comment};

    fn after(self, b: u8) -> Mode
        ensures { result ≡ mode_after self b }
    {
        match self {
            Mode::Between | Mode::Plain => mode_outside(b),
            Mode::Escaped => Mode::Plain,
            Mode::Single => if b == b'\'' {
                Mode::Plain
            } else {
                Mode::Single
            },
            Mode::Double => match b {
                b'"' => Mode::Plain,
                b'\\' => Mode::DoubleEscaped,
                _ => Mode::Double,
            },
            Mode::DoubleEscaped => Mode::Double,
        }
    }

    fn is_opened_by(self, b: u8) -> bool
        ensures { result ≡ opens self b }
    {
        matches!(self, Mode::Between | Mode::Plain) && matches!(b, b'\'' | b'"' | b'\\')
    }

    fn may_end(self) -> bool
        ensures { result ≡ may_end self }
    {
        matches!(self, Mode::Between | Mode::Plain)
    }

    fn is_ended_by(self, b: u8) -> bool
        ensures { result ≡ ends_word self b }
    {
        matches!(self, Mode::Plain) && matches!(b, b' ' | b'\t')
    }

    fn is_commented_by(self, b: u8) -> bool
        ensures { result ≡ begins_comment self b }
    {
        matches!(self, Mode::Between) && b == b'#'
    }
}

// Appends what a byte adds to its word.
fn write(word: &mut Vec<u8>, mode: Mode, b: u8) -> Result<(), Memory>
    ensures { OnOk result (word.new.items ≡ word.old.items ++ written mode b) }
{
    match (mode, b) {
        (Mode::Between | Mode::Plain, b' ' | b'\t' | b'\'' | b'"' | b'\\') => {}
        (Mode::Single, b'\'') | (Mode::Double, b'"' | b'\\') => {}
        (Mode::DoubleEscaped, b'"' | b'\\') => word.push(b)?,
        (Mode::DoubleEscaped, _) => word.extend_from_slice(&[b'\\', b])?,
        _ => word.push(b)?,
    }
    Ok(())
}

#[tactic(auto, unfolding(crate::specs::Words::open_place))]
fn open_place(line: &[u8]) -> Option<usize>
    requires { length line.now < 2 ^ 32 }
    ensures value { result ≡ open_place line.now }
    ensures small { IfSome result (λ p. p < 2 ^ 32) }
{
    let mut mode = Mode::Between;
    let mut opened = 0;
    for (place, b) in line.iter().enumerate() {
        if mode.is_opened_by(*b) {
            opened = place;
        }
        mode = mode.after(*b);
    }
    if mode.may_end() { None } else { Some(opened) }
}

fn is_word_byte(b: u8) -> bool
    ensures { result ≡ is_word_byte b }
{
    matches!(b, b' '..=b'~' | b'\t')
}

fn bad_byte(line: &[u8]) -> Option<usize>
    requires { length line.now < 2 ^ 32 }
    ensures value { result ≡ position (λ b. not (is_word_byte b)) line.now }
    ensures small { IfSome result (λ p. p < 2 ^ 32) }
{
    line.iter().position(|b| !is_word_byte(*b))
}

#[tactic(auto, unfolding(crate::specs::Words::first_bad))]
fn first_bad(line: &[u8]) -> Option<usize>
    requires { length line.now < 2 ^ 32 }
    ensures value { result ≡ first_bad line.now }
    ensures small { IfSome result (λ p. p < 2 ^ 32) }
{
    match (bad_byte(line), open_place(line)) {
        (Some(byte), Some(opened)) => Some(byte.min(opened)),
        (byte, None) => byte,
        (None, opened) => opened,
    }
}

#[tactic(auto, using(crate::proofs::WordLemmas::splitting), unfolding(crate::specs::Words::words_in))]
fn split(alloc: Global, line: &[u8]) -> Result<Vec<Vec<u8>>, Memory>
    ensures { IfOk result (λ words. map (λ word. word.items) words.items ≡ words_in line.now) }
{
    let mut words = Vec::new(alloc);
    let mut word = Vec::new(alloc);
    let mut mode = Mode::Between;
    for b in line {
        if mode.is_ended_by(*b) {
            words.push(mem::replace(&mut word, Vec::new(alloc)))?;
        } else {
            write(&mut word, mode, *b)?;
        }
        mode = mode.after(*b);
    }
    if !matches!(mode, Mode::Between) {
        words.push(word)?;
    }
    Ok(words)
}

/// Splits a line at blanks and tabs, with quotes `'` and `"` and backslashes as in a shell (own).
#[tactic(auto, using(crate::proofs::WordLemmas::words_in_good))]
pub fn split_words(alloc: Global, line: &[u8]) -> Result<Words, WordsRefusal>
    requires { length line.now < 2 ^ 32 }
    ensures value { IfOk result (λ words. words ≡ words_in line.now) }
    ensures good { OnOk result (first_bad line.now ≡ None) }
    ensures refused { (p : ℕ) → IsErrOf result (WordsRefusal.BadWords p) ↔ (first_bad line.now ≡ Some p) }
    ensures by_place { (p : ℕ) → ¬ IsErrOf result (WordsRefusal.BadWord p) }
{
    match first_bad(line) {
        Some(place) => Err(WordsRefusal::BadWords {
            place: place as u32,
        }),
        None => {
            let words = split(alloc, line)?;
            Ok(Words { words })
        }
    }
}

/// What stands before a comment, which is a `#` outside quotes where a word would begin, and all behind it (own).
#[tactic(auto, using(crate::proofs::WordLemmas::commenting), unfolding(crate::specs::Words::before_comment))]
pub fn before_comment(line: &[u8]) -> &[u8]
    ensures value { result.now ≡ before_comment line.now }
    ensures size { length result.now ≤ length line.now }
{
    let mut mode = Mode::Between;
    for (place, b) in line.iter().enumerate() {
        if mode.is_commented_by(*b) {
            return &line[..place];
        }
        mode = mode.after(*b);
    }
    line
}

fn is_word(text: &[u8]) -> bool
    ensures { result ≡ list_all is_word_byte text.now }
{
    text.iter().all(|b| is_word_byte(*b))
}

fn first_bad_word(list: &[String]) -> Option<usize>
    requires { length list.now < 2 ^ 32 }
    ensures value { result ≡ position (λ text. not (list_all is_word_byte (string_bytes text))) list.now }
    ensures small { IfSome result (λ p. p < 2 ^ 32) }
{
    list.iter().position(|text| !is_word(text.as_bytes()))
}

fn copies(alloc: Global, list: &[String]) -> Result<Vec<Vec<u8>>, AllocError>
    ensures { IfOk result (λ words. map (λ word. word.items) words.items ≡ map string_bytes list.now) }
{
    let mut words = Vec::with_capacity(alloc, list.len())?;
    for text in list {
        words.push(Vec::from_slice(alloc, text.as_bytes())?)?;
    }
    Ok(words)
}

/// Takes each text as one word.
#[tactic(auto, using(crate::proofs::WordLemmas::bad_words))]
pub fn words_of(alloc: Global, list: &[String]) -> Result<Words, WordsRefusal>
    requires { length list.now < 2 ^ 32 }
    ensures value { IfOk result (λ words. words ≡ map string_bytes list.now) }
    ensures good { OnOk result (first_bad_word (map string_bytes list.now) ≡ None) }
    ensures refused { (p : ℕ) → IsErrOf result (WordsRefusal.BadWord p)
        ↔ (first_bad_word (map string_bytes list.now) ≡ Some p) }
    ensures by_word { (p : ℕ) → ¬ IsErrOf result (WordsRefusal.BadWords p) }
{
    match first_bad_word(list) {
        Some(place) => Err(WordsRefusal::BadWord {
            place: place as u32,
        }),
        None => {
            let words = copies(alloc, list)?;
            Ok(Words { words })
        }
    }
}

fn is_bare_byte(b: &u8) -> bool
    ensures { result ≡ is_bare_byte b.now }
{
    b.is_ascii_alphanumeric() || b"_-.,=:/+%@[]&|?".contains(b)
}

fn has_bare_bytes(word: &[u8]) -> bool
    ensures { result ≡ list_all is_bare_byte word.now }
{
    word.iter().all(|b| is_bare_byte(b))
}

fn is_bare(word: &[u8]) -> bool
    ensures { result ≡ is_bare word.now }
{
    !word.is_empty() && has_bare_bytes(word)
}

fn push_double_quoted(out: &mut Vec<u8>, b: u8) -> Result<(), AllocError>
    ensures { OnOk result (out.new.items ≡ out.old.items ++ double_quoted b) }
{
    if matches!(b, b'"' | b'\\') {
        out.push(b'\\')?;
    }
    out.push(b)?;
    Ok(())
}

#[tactic(auto, unfolding(crate::specs::Words::quoted))]
fn push_quoted(out: &mut Vec<u8>, word: &[u8]) -> Result<(), AllocError>
    ensures { OnOk result (out.new.items ≡ out.old.items ++ quoted word.now) }
{
    if is_bare(word) {
        return out.extend_from_slice(word);
    }
    out.push(b'"')?;
    for b in word {
        push_double_quoted(out, *b)?;
    }
    out.push(b'"')?;
    Ok(())
}

#[tactic(auto, unfolding(crate::specs::Words::quoted_words))]
fn written_line(alloc: Global, words: &[Vec<u8>]) -> Result<Vec<u8>, AllocError>
    ensures { IfOk result (λ line. line.items ≡ quoted_words (map (λ word. word.items) words.now)) }
{
    let mut line = Vec::new(alloc);
    if let Some((first, others)) = words.split_first() {
        push_quoted(&mut line, first.as_slice())?;
        for word in others {
            line.push(b' ')?;
            push_quoted(&mut line, word.as_slice())?;
        }
    }
    Ok(line)
}

/// Writes words on one line, from which `split_words` reads them again: plain where a word has only letters, digits
/// and `_-.,=:/+%@[]&|?`, else in double quotes (own).
#[tactic(auto, using(crate::proofs::Quotes::quoting))]
pub fn quote_words(alloc: Global, words: &Words) -> Result<Vec<u8>, Memory>
    ensures value { IfOk result (λ line. line.items ≡ quoted_words words.now) }
    ensures splits { IfOk result (λ line. (first_bad line.items ≡ None) × (words_in line.items ≡ words.now)) }
{
    let line = written_line(alloc, words.words.as_slice())?;
    Ok(line)
}
