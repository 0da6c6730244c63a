//! The words of a session's program, as a command of clap reads them.

ghost use Rattle.std.specs.Prelude.{◌≡◌, true, false, Some, None, codes, map, string_bytes, option_map, IfOk, MatchOption};
ghost use Rattle.clap.specs.Walk.{rows_of};
ghost use Rattle.clap.specs.Matches.{found_of};
ghost use Rattle.clap.specs.Simple.{app_of, with_rule};
ghost use Rattle.program_words.specs.Controller.{option_named};
ghost use Rattle.slurm_session.specs.Command.{asked_by, asked_in, bare, command, found_in, is_accepted, text_of, value_found, with_files, word_named, words_of};

use crate::words::SessionWords;
use clap::error::ErrorKind;
use clap::{Arg, ArgAction, ArgMatches, Command};
use plain_data::files::FileNames;
use small_texts::memory_error::Memory;
use std::alloc::{AllocError, Global};

// The command before its options.
fn bare_command<'a>(alloc: Global) -> Command<'a>
    ensures { app_of result ≡ bare }
{
    Command::new(alloc, "slurm_session")
        .no_binary_name(true)
        .disable_help_flag(true)
        .disable_version_flag(true)
}

// Adds an option with a value, and a letter.
fn add_lettered<'a>(
    alloc: Global,
    command: Command<'a>,
    name: &'a str,
    letter: char,
) -> Result<Command<'a>, AllocError>
    ensures { IfOk result (λ r. app_of r ≡ with_rule (app_of command.entry) (option_named name.entry.now (Some letter))) }
{
    let arg = Arg::new(alloc, name)
        .long(name)
        .short(letter)
        .action(ArgAction::Set);
    command.arg(arg)
}

// Adds an option with a value.
fn add_option<'a>(
    alloc: Global,
    command: Command<'a>,
    name: &'a str,
) -> Result<Command<'a>, AllocError>
    ensures { IfOk result (λ r. app_of r ≡ with_rule (app_of command.entry) (option_named name.entry.now None)) }
{
    let arg = Arg::new(alloc, name).long(name).action(ArgAction::Set);
    command.arg(arg)
}

// Adds a word that stands by itself.
fn add_word<'a>(
    alloc: Global,
    command: Command<'a>,
    name: &'a str,
) -> Result<Command<'a>, AllocError>
    ensures { IfOk result (λ r. app_of r ≡ with_rule (app_of command.entry) (word_named name.entry.now)) }
{
    let arg = Arg::new(alloc, name).action(ArgAction::Set);
    command.arg(arg)
}

// Adds those that name the files of a cluster.
fn add_files<'a>(alloc: Global, command: Command<'a>) -> Result<Command<'a>, AllocError>
    ensures { IfOk result (λ r. app_of r ≡ with_files (app_of command.entry)) }
{
    let command = add_lettered(alloc, command, "conf", 'f')?;
    let command = add_lettered(alloc, command, "assoc", 'a')?;
    add_option(alloc, command, "state")
}

// The command.
#[tactic(auto, using(crate::proofs::Commands::command_is))]
fn command<'a>(alloc: Global) -> Result<Command<'a>, AllocError>
    ensures { IfOk result (λ r. app_of r ≡ command) }
{
    let command = bare_command(alloc);
    let command = add_files(alloc, command)?;
    add_word(alloc, command, "file")
}

// What the command finds in words; None where it doesn't accept them.
fn find_in<'a>(alloc: Global, words: &'a [String]) -> Result<Option<ArgMatches<'a>>, Memory>
    ensures { IfOk result (λ found. MatchOption found (is_accepted (map string_bytes words.entry.now) ≡ false)
        (λ matches. (is_accepted (map string_bytes words.entry.now) ≡ true)
        × (rows_of (found_of matches) ≡ found_in (map string_bytes words.entry.now)))) }
{
    let command = command(alloc)?;
    match command.try_get_matches_from(words) {
        Ok(matches) => Ok(Some(matches)),
        Err(error) => match error.kind() {
            ErrorKind::OutOfMemory => Err(Memory),
            _ => Ok(None),
        },
    }
}

// The value that was found of an option, or the word that was found.
fn value_found<'a>(matches: &ArgMatches<'a>, name: &str) -> Option<&'a str>
    ensures { text_of result ≡ value_found name.now (rows_of (found_of matches.now)) }
{
    matches.get_str(name)
}

// What was found asks this; None where one of the two files of a cluster lacks its name.
fn asked_by<'a>(matches: &ArgMatches<'a>) -> Option<SessionWords<'a>>
    ensures { option_map words_of result ≡ asked_by (rows_of (found_of matches.now)) }
{
    let conf = value_found(matches, "conf")?;
    let assocs = value_found(matches, "assoc")?;
    Some(SessionWords {
        files: FileNames {
            conf,
            assocs,
            state: value_found(matches, "state"),
        },
        file: value_found(matches, "file"),
    })
}

/// What the words behind the program's name ask; None where they are off.
#[tactic(auto, unfolding(crate::specs::Command::asked_in))]
pub(crate) fn asked_in<'a>(
    alloc: Global,
    words: &'a [String],
) -> Result<Option<SessionWords<'a>>, Memory>
    ensures { IfOk result (λ asked. option_map words_of asked ≡ asked_in (map string_bytes words.entry.now)) }
{
    let Some(matches) = find_in(alloc, words)? else {
        return Ok(None);
    };
    Ok(asked_by(&matches))
}
