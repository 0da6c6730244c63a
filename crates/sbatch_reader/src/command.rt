//! The words of a command.

ghost use Rattle.std.specs.Prelude.{◌≡◌, fold, option_map, OnOk};
ghost use Rattle.sbatch_reader.specs.Drafts.{after};
ghost use Rattle.text_values.specs.WordRefusal.{told};
ghost use Rattle.sbatch_reader.specs.Said.{command_parts, script_in, command_says, line_says};

use crate::draft::Draft;
use crate::refusal::told;
use crate::said::{Reading, Source, read_argument};
use crate::table::next_option;
use line_words::words::Words;
use small_texts::memory_error::Memory;
use std::alloc::Global;
use text_values::arguments::{Argument, Cursor};

/// The word that names the script, with its number.
pub(crate) fn find_script(words: &Words) -> Option<(usize, &[u8])>
    ensures { option_map (λ word. (word.0, word.1.now)) result ≡ script_in (command_parts words.now) }
{
    let mut cursor = Cursor {
        place: 1,
        ended: false,
    };
    while let Some(argument) = next_option(words, &mut cursor) {
        if let Argument::Plain { number, text } = argument {
            return Some((number, text));
        }
    }
    None
}

/// The number of the word that names the script: the first behind the command's name that is neither an option nor its
/// value, where an unknown option has no value. A number that 32 bits don't hold is told as the greatest.
pub fn script_word(words: &Words) -> Option<u32>
    ensures { result ≡ option_map (λ word. told word.0) (script_in (command_parts words.now)) }
{
    match find_script(words) {
        Some((number, _)) => Some(told(number)),
        None => None,
    }
}

/// Reads the words of a command up to its script.
pub(crate) fn read_command(
    alloc: Global,
    words: &Words,
    has_script: bool,
    now: u64,
    draft: &mut Draft,
) -> Result<(), Memory>
    ensures { OnOk result (draft.new ≡ fold after draft.old (command_says now has_script words.now)) }
{
    let reading = Reading {
        source: Source::Command,
        has_script,
        now,
    };
    let mut cursor = Cursor {
        place: 1,
        ended: false,
    };
    while let Some(argument) = next_option(words, &mut cursor) {
        if let Argument::Plain { number: _, text: _ } = argument {
            return Ok(());
        }
        draft.take(read_argument(alloc, reading, argument)?);
    }
    Ok(())
}

/// Reads the words of a line of the script.
pub(crate) fn read_line_words(
    alloc: Global,
    words: &Words,
    line: usize,
    now: u64,
    draft: &mut Draft,
) -> Result<(), Memory>
    ensures { OnOk result (draft.new ≡ fold after draft.old (line_says now line words.now)) }
{
    let reading = Reading {
        source: Source::ScriptLine(line),
        has_script: true,
        now,
    };
    let mut cursor = Cursor {
        place: 0,
        ended: false,
    };
    while let Some(argument) = next_option(words, &mut cursor) {
        draft.take(read_argument(alloc, reading, argument)?);
    }
    Ok(())
}
