//! The words of a command, one argument after the other: options with their values, and other words. Words count from
//! 1, which is the command's name.

ghost use Rattle.std.specs.Prelude.{ℕ, ◌≡◌, ◌+◌, ◌∷◌, ◌<◌, ◌≤◌, ◌^◌, List, [], length, drop, Option, Some, None, option_copied, OnSome, IfSome, MatchOption, position};
ghost use Rattle.std.specs.List.{cons_option};
ghost use Rattle.text_values.specs.Arguments.{Table, named, lettered, is_dashed, is_end, up_to, behind, equals_place, unless_empty, option_in, wanting, alone, parts, parts_from, plains_from, parts_left, part_of, last_number, rows};
ghost use Rattle.text_values.specs.declared.arguments.Takes.{Takes};

use crate::word_refusal::WordKind;
use line_words::words::Words;

/// What an option takes.
#[derive(Clone, Copy)]
pub enum Takes<F, V> {
    /// No value: it stands alone in its word.
    Nothing(F),
    /// A value, behind it in its word or else in the next word.
    Value(V),
    /// A value behind it in its word, or none.
    Maybe(F, V),
}

/// One argument of a command, with the number of its first word.
#[derive(Clone, Copy)]
pub enum Argument<'a, F, V> {
    /// A word that is no option and no value of one.
    Plain {
        number: usize,
        text: &'a [u8],
    },
    /// An option that the command doesn't have, or one that takes no value and has one in its word.
    Bad {
        number: usize,
        kind: WordKind,
    },
    /// An option without a value.
    Flag {
        number: usize,
        flag: F,
    },
    /// An option, and its value in the word `place`.
    Valued {
        number: usize,
        option: V,
        place: usize,
        text: &'a [u8],
    },
    /// An option that lacks its value, since no word is left.
    Lacking {
        number: usize,
        option: V,
    },
}

/// How far the words of a command are read.
#[derive(Clone, Copy)]
pub struct Cursor {
    /// The place of the next word, counted from 0.
    pub place: usize,
    /// Whether `--` has ended the options.
    pub ended: bool,
}

// The option of a long name in a table of names, letters and what options take.
fn find_named<F: Copy, V: Copy>(
    table: &[(&[u8], Option<u8>, Takes<F, V>)],
    name: &[u8],
) -> Option<Takes<F, V>>
    ensures { result ≡ named (rows table.now) name.now }
{
    for (long, _, takes) in table {
        if name == *long {
            return Some(*takes);
        }
    }
    None
}

// The option of a letter.
fn find_lettered<F: Copy, V: Copy>(
    table: &[(&[u8], Option<u8>, Takes<F, V>)],
    letter: u8,
) -> Option<Takes<F, V>>
    ensures { result ≡ lettered (rows table.now) letter }
{
    for (_, own, takes) in table {
        if *own == Some(letter) {
            return Some(*takes);
        }
    }
    None
}

fn is_dashed(word: &[u8]) -> bool
    ensures { result ≡ is_dashed word.now }
{
    matches!(word, [b'-', _, ..])
}

fn is_end(word: &[u8]) -> bool
    ensures { result ≡ is_end word.now }
{
    word == b"--".as_slice()
}

/// Where the first `=` of a text stands, counted from 0.
pub fn equals_place(text: &[u8]) -> Option<usize>
    ensures { result ≡ equals_place text.now }
{
    text.iter().position(|b| *b == b'=')
}

// The long name that begins a text, and the value behind it.
fn cut_long(text: &[u8]) -> (&[u8], Option<&[u8]>)
    ensures name { result.0.now ≡ up_to (equals_place text.now) text.now }
    ensures value { option_copied result.1 ≡ behind (equals_place text.now) text.now }
{
    match equals_place(text) {
        Some(place) => (&text[..place], Some(&text[place + 1..])),
        None => (text, None),
    }
}

fn unless_empty(text: &[u8]) -> Option<&[u8]>
    ensures { option_copied result ≡ unless_empty text.now }
{
    if text.is_empty() { None } else { Some(text) }
}

// The option that a word names, and the value in that word.
fn option_in<'a, F: Copy, V: Copy>(
    table: &[(&[u8], Option<u8>, Takes<F, V>)],
    word: &'a [u8],
) -> (Option<Takes<F, V>>, Option<&'a [u8]>)
    ensures takes { result.0 ≡ (option_in (rows table.now) word.entry.now).0 }
    ensures value { option_copied result.1 ≡ (option_in (rows table.now) word.entry.now).1 }
{
    match word {
        [_, b'-', text @ ..] => {
            let (name, value) = cut_long(text);
            (find_named(table, name), value)
        }
        [_, letter, text @ ..] => (find_lettered(table, *letter), unless_empty(text)),
        _ => (None, None),
    }
}

// The word at a place.
fn word_at(words: &Words, place: usize) -> Option<&[u8]>
    ensures word { MatchOption result (drop place words.now ≡ [])
        (λ word. drop place words.now ≡ word.now ∷ drop (place + 1) words.now) }
    ensures within { OnSome result (place < length words.now) }
    ensures room { OnSome result (place + 1 < 2 ^ 64) }
{
    if place < words.len() {
        words.get(place)
    } else {
        None
    }
}

// The next word, where it is no option.
fn next_plain<'a, F: Copy, V: Copy>(
    words: &'a Words,
    cursor: &mut Cursor,
) -> Option<Argument<'a, F, V>>
    ensures part { MatchOption result (drop cursor.old.place words.entry.now ≡ [])
        (λ argument. plains_from words.entry.now cursor.old.place
        ≡ part_of argument ∷ plains_from words.entry.now cursor.new.place) }
    ensures within { IfSome result (λ argument. last_number (part_of argument) ≤ length words.entry.now) }
    ensures ended { cursor.new.ended ≡ cursor.old.ended }
{
    let text = word_at(words, cursor.place)?;
    cursor.place += 1;
    Some(Argument::Plain {
        number: cursor.place,
        text,
    })
}

// An option that wants the next word as its value.
fn take_value<'a, F: Copy, V: Copy>(
    words: &'a Words,
    cursor: &mut Cursor,
    option: V,
) -> Argument<'a, F, V>
    requires { cursor.old.place ≤ length words.now }
    ensures part { (table : Table F V)
        → parts table (cursor.old.place + 1) (Some (cursor.old.place, option)) (drop cursor.old.place words.entry.now)
        ≡ part_of result ∷ parts_from table words.entry.now cursor.new.place }
    ensures within { last_number (part_of result) ≤ length words.entry.now }
    ensures ended { cursor.new.ended ≡ cursor.old.ended }
{
    let number = cursor.place;
    let Some(text) = word_at(words, number) else {
        return Argument::Lacking { number, option };
    };
    cursor.place += 1;
    Argument::Valued {
        number,
        option,
        place: cursor.place,
        text,
    }
}

// An option that doesn't.
fn take_alone<'a, F: Copy, V: Copy>(
    number: usize,
    takes: Option<Takes<F, V>>,
    value: Option<&'a [u8]>,
) -> Argument<'a, F, V>
    requires { wanting number takes (option_copied value) ≡ None }
    ensures part { alone number takes (option_copied value.entry) ≡ Some (part_of result) }
    ensures within { last_number (part_of result) ≡ number }
{
    match (takes, value) {
        (None, _) => Argument::Bad {
            number,
            kind: WordKind::UnknownOption,
        },
        (Some(Takes::Nothing(_)), Some(_)) => Argument::Bad {
            number,
            kind: WordKind::BadValue,
        },
        (Some(Takes::Nothing(flag) | Takes::Maybe(flag, _)), None) => Argument::Flag {
            number,
            flag,
        },
        (Some(Takes::Value(option) | Takes::Maybe(_, option)), Some(text)) => Argument::Valued {
            number,
            option,
            place: number,
            text,
        },
        (Some(Takes::Value(option)), None) => Argument::Lacking { number, option },
    }
}

// The next argument behind a word with a dash.
fn take_option<'a, F: Copy, V: Copy>(
    table: &[(&[u8], Option<u8>, Takes<F, V>)],
    words: &'a Words,
    cursor: &mut Cursor,
    word: &'a [u8],
) -> Argument<'a, F, V>
    requires { cursor.old.place ≤ length words.now }
    ensures part { let named = option_in (rows table.now) word.entry.now in
        cons_option (alone cursor.old.place named.0 named.1)
        (parts (rows table.now) (cursor.old.place + 1) (wanting cursor.old.place named.0 named.1)
        (drop cursor.old.place words.entry.now))
        ≡ part_of result ∷ parts_from (rows table.now) words.entry.now cursor.new.place }
    ensures within { last_number (part_of result) ≤ length words.entry.now }
    ensures ended { cursor.new.ended ≡ cursor.old.ended }
{
    match option_in(table, word) {
        (Some(Takes::Value(option)), None) => take_value(words, cursor, option),
        (takes, value) => take_alone(cursor.place, takes, value),
    }
}

/// The next argument of a command, by a table of its options: of each the long name, the letter, if it has one, and
/// what it takes. `--` ends the options, and behind it each word is plain. It takes no memory, and costs a few steps
/// for each byte of a word and each row of the table.
#[tactic(auto, unfolding(crate::specs::Arguments::parts_left))]
pub fn next_argument<'a, F: Copy, V: Copy>(
    table: &[(&[u8], Option<u8>, Takes<F, V>)],
    words: &'a Words,
    cursor: &mut Cursor,
) -> Option<Argument<'a, F, V>>
    ensures part { MatchOption result (parts_left (rows table.now) words.entry.now cursor.old ≡ [])
        (λ argument. parts_left (rows table.now) words.entry.now cursor.old
        ≡ part_of argument ∷ parts_left (rows table.now) words.entry.now cursor.new) }
    ensures within { IfSome result (λ argument. last_number (part_of argument) ≤ length words.entry.now) }
{
    if cursor.ended {
        return next_plain(words, cursor);
    }
    let word = word_at(words, cursor.place)?;
    cursor.place += 1;
    if is_end(word) {
        cursor.ended = true;
        return next_plain(words, cursor);
    }
    if is_dashed(word) {
        return Some(take_option(table, words, cursor, word));
    }
    Some(Argument::Plain {
        number: cursor.place,
        text: word,
    })
}
