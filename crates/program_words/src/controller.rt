//! The words of slurmctld(8), as a command of clap reads them.

ghost use Rattle.std.specs.Prelude.{◌≡◌, true, false, Some, None, codes, map, string_bytes, option_map, IfOk, MatchOption};
ghost use Rattle.clap.specs.Walk.{rows_of};
ghost use Rattle.clap.specs.Matches.{found_of};
ghost use Rattle.clap.specs.Simple.{app_of, with_rule};
ghost use Rattle.program_words.specs.Controller.{flag_named, option_named, controller, is_accepted, found_in, value_found, is_found, said_by, said_in};
ghost use Rattle.program_words.specs.Bare.{bare, with_flags, with_files, with_numbers};
ghost use Rattle.plain_data.specs.Files.{text_of};
ghost use Rattle.program_words.specs.Words.{said_of};

use crate::said::Said;
use clap::error::ErrorKind;
use clap::{Arg, ArgAction, ArgMatches, Command};
use small_texts::memory_error::Memory;
use std::alloc::{AllocError, Global};

// The command before its options.
fn bare_command<'a>(alloc: Global) -> Command<'a>
    ensures { app_of result ≡ bare }
{
    Command::new(alloc, "slurmctld")
        .disable_help_flag(true)
        .disable_version_flag(true)
}

// Adds an option without a value.
fn add_flag<'a>(
    alloc: Global,
    command: Command<'a>,
    name: &'a str,
) -> Result<Command<'a>, AllocError>
    ensures { IfOk result (λ r. app_of r ≡ with_rule (app_of command.entry) (flag_named name.entry.now)) }
{
    let arg = Arg::new(alloc, name).long(name).action(ArgAction::SetTrue);
    command.arg(arg)
}

// Adds an option with a value.
fn add_option<'a>(
    alloc: Global,
    command: Command<'a>,
    name: &'a str,
) -> Result<Command<'a>, AllocError>
    ensures { IfOk result (λ r. app_of r ≡ with_rule (app_of command.entry) (option_named name.entry.now None)) }
{
    let arg = Arg::new(alloc, name).long(name).action(ArgAction::Set);
    command.arg(arg)
}

// Adds an option with a value, and a letter.
fn add_lettered<'a>(
    alloc: Global,
    command: Command<'a>,
    name: &'a str,
    letter: char,
) -> Result<Command<'a>, AllocError>
    ensures { IfOk result (λ r. app_of r ≡ with_rule (app_of command.entry) (option_named name.entry.now (Some letter))) }
{
    let arg = Arg::new(alloc, name)
        .long(name)
        .short(letter)
        .action(ArgAction::Set);
    command.arg(arg)
}

// Adds the options that say what is to be done.
fn add_flags<'a>(alloc: Global, command: Command<'a>) -> Result<Command<'a>, AllocError>
    ensures { IfOk result (λ r. app_of r ≡ with_flags (app_of command.entry)) }
{
    let command = add_flag(alloc, command, "script")?;
    let command = add_flag(alloc, command, "serve")?;
    let command = add_flag(alloc, command, "run")?;
    add_flag(alloc, command, "save")
}

// Adds those that name files.
fn add_files<'a>(alloc: Global, command: Command<'a>) -> Result<Command<'a>, AllocError>
    ensures { IfOk result (λ r. app_of r ≡ with_files (app_of command.entry)) }
{
    let command = add_lettered(alloc, command, "conf", 'f')?;
    let command = add_lettered(alloc, command, "assoc", 'a')?;
    add_option(alloc, command, "state")
}

// Adds those that say how a server is run, and what is summed up.
fn add_numbers<'a>(alloc: Global, command: Command<'a>) -> Result<Command<'a>, AllocError>
    ensures { IfOk result (λ r. app_of r ≡ with_numbers (app_of command.entry)) }
{
    let command = add_option(alloc, command, "port")?;
    let command = add_option(alloc, command, "workers")?;
    add_option(alloc, command, "sacct")
}

// The command.
#[tactic(auto, using(crate::proofs::Controllers::controller_is))]
fn controller<'a>(alloc: Global) -> Result<Command<'a>, AllocError>
    ensures { IfOk result (λ r. app_of r ≡ controller) }
{
    let command = bare_command(alloc);
    let command = add_flags(alloc, command)?;
    let command = add_files(alloc, command)?;
    let command = add_numbers(alloc, command)?;
    add_option(alloc, command, "generate")
}

// What the command finds in words, of which the first is its name; None where it doesn't accept them.
fn find_in<'a>(alloc: Global, words: &'a [String]) -> Result<Option<ArgMatches<'a>>, Memory>
    ensures { IfOk result (λ found. MatchOption found (is_accepted (map string_bytes words.entry.now) ≡ false)
        (λ matches. (is_accepted (map string_bytes words.entry.now) ≡ true)
        × (rows_of (found_of matches) ≡ found_in (map string_bytes words.entry.now)))) }
{
    let command = controller(alloc)?;
    match command.try_get_matches_from(words) {
        Ok(matches) => Ok(Some(matches)),
        Err(error) => match error.kind() {
            ErrorKind::OutOfMemory => Err(Memory),
            _ => Ok(None),
        },
    }
}

// The value that was found of an option.
fn value_found<'a>(matches: &ArgMatches<'a>, name: &str) -> Option<&'a str>
    ensures { text_of result ≡ value_found name.now (rows_of (found_of matches.now)) }
{
    matches.get_str(name)
}

// Whether an option without a value was found. The value of one that is there is `true`.
fn is_found(matches: &ArgMatches<'_>, name: &str) -> bool
    ensures { result ≡ is_found name.now (rows_of (found_of matches.now)) }
{
    match value_found(matches, name) {
        Some(text) => text == "true",
        None => false,
    }
}

fn said_by<'a>(matches: &ArgMatches<'a>) -> Said<'a>
    ensures { said_of result ≡ said_by (rows_of (found_of matches.now)) }
{
    Said {
        script: is_found(matches, "script"),
        serve: is_found(matches, "serve"),
        run: is_found(matches, "run"),
        save: is_found(matches, "save"),
        conf: value_found(matches, "conf"),
        assocs: value_found(matches, "assoc"),
        state: value_found(matches, "state"),
        port: value_found(matches, "port"),
        workers: value_found(matches, "workers"),
        sacct: value_found(matches, "sacct"),
        generate: value_found(matches, "generate"),
    }
}

/// What words say, of which the first is the command's name; None where the command doesn't accept them.
#[tactic(auto, unfolding(crate::specs::Controller::said_in))]
pub(crate) fn said_in<'a>(alloc: Global, words: &'a [String]) -> Result<Option<Said<'a>>, Memory>
    ensures { IfOk result (λ said. option_map said_of said ≡ said_in (map string_bytes words.entry.now)) }
{
    let Some(matches) = find_in(alloc, words)? else {
        return Ok(None);
    };
    Ok(Some(said_by(&matches)))
}
