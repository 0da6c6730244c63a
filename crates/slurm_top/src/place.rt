//! Where what is attached to a command is.

ghost use Rattle.std.specs.Prelude.{◌≡◌, IsTrue};
ghost use Rattle.std.specs.List.{list_all};
ghost use Rattle.line_words.specs.Words.{is_word_byte};
ghost use Rattle.text_values.specs.Arguments.{part_of};
ghost use Rattle.slurm_top.specs.Scripts.{is_wrap, has_wrap, word_numbered, told_word, sbatch_place, script_place};
ghost use Rattle.slurm_top.specs.Places.{told_place};

use command_words::command::Command;
use command_words::reconfigure::is_reconfigure;
use line_words::words::Words;
use sbatch_reader::reader::script_word;
use sbatch_reader::table::{FlagOption, ValueOption, next_option};
use std::str;
use text_values::arguments::{Argument, Cursor};

/// Where a script or a configuration is.
#[derive(Clone, Copy)]
pub(crate) enum Place<'a> {
    /// There is none.
    Nowhere,
    /// In the file of this name.
    File(&'a str),
    /// In the input: all of it.
    Input,
}

fn is_wrap(argument: &Argument<'_, FlagOption, ValueOption>) -> bool
    ensures { result ≡ is_wrap (part_of argument.now) }
{
    match argument {
        Argument::Valued { option, .. } | Argument::Lacking { option, .. } => {
            matches!(option, ValueOption::Wrap)
        }
        _ => false,
    }
}

// Whether `--wrap` is among the words of a command.
fn has_wrap(words: &Words) -> bool
    ensures { result ≡ has_wrap words.now }
{
    let mut cursor = Cursor {
        place: 1,
        ended: false,
    };
    while let Some(argument) = next_option(words, &mut cursor) {
        if is_wrap(&argument) {
            return true;
        }
    }
    false
}

// The word of a number.
fn word_numbered(words: &Words, number: u32) -> &[u8]
    ensures value { result.now ≡ word_numbered words.now number }
    ensures good { IsTrue (list_all is_word_byte result.now) }
{
    let _all = words.len();
    match words.get((number as usize).saturating_sub(1)) {
        Some(word) => word,
        None => b"",
    }
}

// A word as text: its bytes are all of one byte's characters.
fn text_of(word: &[u8]) -> &str
    requires { IsTrue (list_all is_word_byte word.now) }
    ensures { result.now ≡ word.now }
{
    match str::from_utf8(word) {
        Ok(text) => text,
        Err(_) => unreachable!(),
    }
}

fn sbatch_place(words: &Words) -> Place<'_>
    ensures { told_place result ≡ sbatch_place words.now (told_word words.now) }
{
    match script_word(words) {
        Some(number) => Place::File(text_of(word_numbered(words, number))),
        None if has_wrap(words) => Place::Nowhere,
        None => Place::Input,
    }
}

/// Where what is attached to a command is. Of sbatch(1) that is its script: in the file that its words name, and without
/// one all of the input, but for `--wrap`. Of `scontrol reconfigure` it is a configuration: all of the input.
#[tactic(auto, unfolding(crate::specs::Scripts::script_place))]
pub(crate) fn script_place(command: Command, words: &Words) -> Place<'_>
    ensures { told_place result ≡ script_place command words.now }
{
    match command {
        Command::Sbatch => sbatch_place(words),
        Command::Scontrol if is_reconfigure(words) => Place::Input,
        _ => Place::Nowhere,
    }
}
