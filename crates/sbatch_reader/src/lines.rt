//! The lines of a script.

ghost use Rattle.std.specs.Prelude.{◌≡◌, ◌∷◌, ◌++◌, [], true, false, drop, fold, option_copied, MatchOption, IfOk, OnOk};
ghost use Rattle.std.specs.List.{list_all};
ghost use Rattle.std.specs.Str.{byte};
ghost use Rattle.small_texts.specs.Fields.{fields, fields_of_rest};
ghost use Rattle.line_words.specs.Words.{is_blank};
ghost use Rattle.sbatch_reader.specs.Drafts.{after};
ghost use Rattle.sbatch_reader.specs.Said.{fault_at};
ghost use Rattle.sbatch_reader.specs.declared.said.Source.TheVariants.{ScriptLine};
ghost use Rattle.sbatch_reader.specs.Lines.{is_read, begins_blank, begins_or_ends, has_options, has_run, keyed, run_of, run_says, split_text, options_say, one_line_says, lines_say, first_says, script_says};

use crate::command::read_line_words;
use crate::draft::Draft;
use crate::entries::Entry;
use crate::refusal::{Place, WordKind, told};
use crate::said::Said;
use line_words::words::{Words, WordsRefusal, before_comment, split_words};
use small_texts::fields::{UpToThree, first_field, up_to_three};
use small_texts::memory_error::Memory;
use std::alloc::Global;
use text_values::numbers::read_number;

// A longer line of options isn't held.
const LONGEST_LINE: usize = 4_294_967_295;

fn is_blank_line(line: &[u8]) -> bool
    ensures { result ≡ list_all is_blank line.now }
{
    line.iter().all(|b| matches!(b, b' ' | b'\t'))
}

fn is_read(line: &[u8]) -> bool
    ensures { result ≡ is_read line.now }
{
    line.starts_with(b"#") || is_blank_line(line)
}

fn begins_blank(text: &[u8]) -> bool
    ensures { result ≡ begins_blank text.now }
{
    matches!(text, [b' ' | b'\t', ..])
}

fn begins_or_ends(text: &[u8]) -> bool
    ensures { result ≡ begins_or_ends text.now }
{
    matches!(text, [] | [b' ' | b'\t', ..])
}

// The options of a line, where it has any.
fn options_text(line: &[u8]) -> Option<&[u8]>
    ensures { MatchOption result (has_options line.now ≡ false)
        (λ text. (has_options line.now ≡ true) × (text.now ≡ drop 7 line.now)) }
{
    if !line.starts_with(b"#SBATCH") {
        return None;
    }
    let text = &line[7..];
    if begins_blank(text) { Some(text) } else { None }
}

fn has_run(line: &[u8]) -> bool
    ensures { result ≡ has_run line.now }
{
    line.starts_with(b"#SIM") && begins_or_ends(&line[4..])
}

// The value of `key=value`.
fn keyed<'a>(key: &[u8], text: &'a [u8]) -> Option<&'a [u8]>
    ensures { option_copied result ≡ keyed key.now (fields (byte "=") text.entry.now) }
{
    match up_to_three(text, b'=') {
        UpToThree::Two(name, value) => if name == key { Some(value) } else { None },
        _ => None,
    }
}

#[tactic(auto, unfolding(crate::specs::Lines::run_of))]
fn read_run(line: &[u8]) -> Option<Entry>
    ensures { result ≡ run_of (fields (byte " ") line.now) }
{
    match up_to_three(line, b' ') {
        UpToThree::Three(mark, run, exit) => {
            let seconds = read_number(keyed(b"run", run)?)?;
            let code = read_number(keyed(b"exit", exit)?)?;
            if mark == b"#SIM".as_slice() {
                Some(Entry::Run(seconds, code))
            } else {
                None
            }
        }
        _ => None,
    }
}

// What a line says of how long the script takes.
fn run_said(number: usize, line: &[u8]) -> Said
    ensures { result ≡ run_says number line.now }
{
    Said {
        place: Place::Line(told(number)),
        what: read_run(line).ok_or(WordKind::BadValue),
    }
}

fn bad_line(number: usize, kind: WordKind) -> Said
    ensures { result ≡ fault_at (ScriptLine number) 0 kind }
{
    Said {
        place: Place::Line(told(number)),
        what: Err(kind),
    }
}

// The words of a text. A text of 4 GiB or more counts as want of memory.
#[tactic(auto, unfolding(crate::specs::Lines::split_text))]
fn split_text(alloc: Global, text: &[u8]) -> Result<Option<Words>, Memory>
    ensures { IfOk result (λ words. words ≡ split_text text.now) }
{
    if text.len() > LONGEST_LINE {
        return Err(Memory);
    }
    match split_words(alloc, text) {
        Ok(words) => Ok(Some(words)),
        Err(WordsRefusal::BadWords { place: _ }) => Ok(None),
        Err(WordsRefusal::BadWord { place: _ } | WordsRefusal::Memory) => Err(Memory),
    }
}

// Reads what stands behind `#SBATCH`.
fn read_options(
    alloc: Global,
    number: usize,
    text: &[u8],
    now: u64,
    draft: &mut Draft,
) -> Result<(), Memory>
    ensures { OnOk result (draft.new ≡ fold after draft.old (options_say now number text.now)) }
{
    match split_text(alloc, before_comment(text))? {
        Some(words) => read_line_words(alloc, &words, number, now, draft),
        None => {
            draft.take(bad_line(number, WordKind::BadValue));
            Ok(())
        }
    }
}

#[tactic(auto, unfolding(crate::specs::Lines::one_line_says))]
fn read_line(
    alloc: Global,
    number: usize,
    line: &[u8],
    now: u64,
    draft: &mut Draft,
) -> Result<(), Memory>
    ensures { OnOk result (draft.new ≡ fold after draft.old (one_line_says now number line.now)) }
{
    if let Some(text) = options_text(line) {
        return read_options(alloc, number, text, now, draft);
    }
    if has_run(line) {
        draft.take(run_said(number, line));
    }
    Ok(())
}

// Reads the lines behind the first one.
fn read_lines(alloc: Global, rest: Option<&[u8]>, now: u64, draft: &mut Draft) -> Result<(), Memory>
    ensures { OnOk result (draft.new
        ≡ fold after draft.old (lines_say now 2 (fields_of_rest (byte "\n") (option_copied rest.entry)))) }
{
    let mut rest = rest;
    let mut number = 2;
    while let Some(text) = rest {
        let (line, behind) = first_field(text, b'\n');
        if !is_read(line) {
            return Ok(());
        }
        read_line(alloc, number, line, now, draft)?;
        number += 1;
        rest = behind;
    }
    Ok(())
}

/// Reads a script.
#[tactic(auto, unfolding(crate::specs::Lines::script_says))]
pub(crate) fn read_script(
    alloc: Global,
    script: &[u8],
    now: u64,
    draft: &mut Draft,
) -> Result<(), Memory>
    ensures { OnOk result (draft.new ≡ fold after draft.old (script_says now script.now)) }
{
    let (first, rest) = first_field(script, b'\n');
    if !first.starts_with(b"#!") {
        draft.take(bad_line(1, WordKind::NoHashBang));
    }
    read_lines(alloc, rest, now, draft)
}
