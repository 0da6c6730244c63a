//! The header of a block, with its attachment.

ghost use Rattle.std.specs.Prelude.{◌≡◌, ◌≤◌, length, option_copied, option_map, IfOk, OnSome};
ghost use Rattle.command_words.specs.Header.{head_in, command_in, asked_by, meaning_by, meaning_in};

use crate::command::{Command, command_named};
use crate::fault::WordFault;
use crate::wanted::read_command;
use line_words::words::{Words, WordsRefusal, split_words};
use operands::names::read_name;
use request_data::request::Request;
use small_texts::digits::parse_number;
use small_texts::memory_error::Memory;
use small_texts::name::Name;
use std::alloc::Global;

// A longer header isn't held.
const LONGEST_HEADER: usize = 4_294_967_295;

/// What a user asks at a moment.
#[derive(Drop)]
pub struct Asked {
    pub moment: u64,
    pub user: Name,
    pub request: Request,
}

/// What a header and its attachment ask.
#[derive(Drop)]
pub enum Meaning {
    Asks(Asked),
    /// The command's words or its script are wrong.
    Malformed { command: Command, fault: WordFault },
    /// The first of the command's words names no command, whatever stands behind it.
    UnknownCommand,
    /// The header is no list of words: it has a bad byte at this place, counted in bytes from 0, or a quote or
    /// backslash there that stays open.
    BadWords { place: u32 },
    /// The words don't begin with a moment, a user and a command.
    BadHeader,
}

// Who asks, and when.
#[derive(Drop)]
pub(crate) struct Head {
    pub(crate) moment: u64,
    pub(crate) user: Name,
}

/// Reads a header and its attachment. Linear in both, but for what the words of sbatch(1) cost. A header of 4 GiB or
/// more counts as want of memory.
#[tactic(auto, unfolding(crate::specs::Header::meaning_in))]
pub fn read_header(
    alloc: Global,
    header: &[u8],
    attachment: Option<&[u8]>,
) -> Result<Meaning, Memory>
    ensures { IfOk result (λ meaning. meaning ≡ meaning_in header.now (option_copied attachment.entry)) }
{
    if header.len() > LONGEST_HEADER {
        return Err(Memory);
    }
    match split_words(alloc, header) {
        Ok(words) => read_words(alloc, words, attachment),
        Err(WordsRefusal::BadWords { place }) => Ok(Meaning::BadWords { place }),
        Err(WordsRefusal::BadWord { place: _ } | WordsRefusal::Memory) => Err(Memory),
    }
}

#[tactic(auto, unfolding(crate::specs::Header::meaning_by))]
fn read_words(alloc: Global, words: Words, attachment: Option<&[u8]>) -> Result<Meaning, Memory>
    ensures { IfOk result (λ meaning. meaning ≡ meaning_by words (option_copied attachment.entry)) }
{
    let Some(head) = read_head(alloc, &words)? else {
        return Ok(Meaning::BadHeader);
    };
    let mut words = words;
    words.drop_first(2);
    read_asked(alloc, head, &words, attachment)
}

// The moment and the user, where a command follows them.
#[tactic(auto, unfolding(crate::specs::Header::head_in))]
fn read_head(alloc: Global, words: &Words) -> Result<Option<Head>, Memory>
    ensures value { IfOk result (λ head. head ≡ head_in words.now) }
    ensures long { IfOk result (λ head. OnSome head (2 ≤ length words.now)) }
{
    let (Some(moment), Some(user), Some(_)) = (words.get(0), words.get(1), words.get(2)) else {
        return Ok(None);
    };
    let Some(moment) = parse_number(moment, 20, u64::MAX) else {
        return Ok(None);
    };
    let Some(user) = read_name(alloc, user)? else {
        return Ok(None);
    };
    Ok(Some(Head { moment, user }))
}

fn command_in(words: &Words) -> Option<Command>
    ensures { result ≡ command_in words.now }
{
    command_named(words.get(0)?)
}

#[tactic(auto, unfolding(crate::specs::Header::asked_by))]
pub(crate) fn read_asked(
    alloc: Global,
    head: Head,
    words: &Words,
    attachment: Option<&[u8]>,
) -> Result<Meaning, Memory>
    ensures { IfOk result (λ meaning. meaning ≡ asked_by head words.now (option_copied attachment.entry)) }
{
    let Some(command) = command_in(words) else {
        return Ok(Meaning::UnknownCommand);
    };
    match read_command(alloc, command, head.moment, words, attachment)? {
        Ok(request) => Ok(Meaning::Asks(Asked {
            moment: head.moment,
            user: head.user,
            request,
        })),
        Err(fault) => Ok(Meaning::Malformed { command, fault }),
    }
}
