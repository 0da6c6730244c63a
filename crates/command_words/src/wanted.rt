//! What the words of a command want.

ghost use Rattle.std.specs.Prelude.{◌≡◌, option_copied, IfOk};
ghost use Rattle.command_words.specs.Wanted.{scontrol_with, stray, wanted_by, without};

use crate::alone::read_alone;
use crate::command::Command;
use crate::fault::{WordFault, WordKind};
use crate::reconfigure::{by_words, is_reconfigure, read_reconfigure};
use crate::sbatch::read_sbatch;
use line_words::words::Words;
use operands::bad_word::BadWord;
use request_data::request::Request;
use small_texts::memory_error::Memory;
use std::alloc::Global;

/// Reads the words of a command, the first of which is its name, and its attachment at the moment `now`: what they ask
/// for, or the first bad place.
#[tactic(auto, unfolding(crate::specs::Wanted::wanted_by))]
pub(crate) fn read_command(
    alloc: Global,
    command: Command,
    now: u64,
    words: &Words,
    attachment: Option<&[u8]>,
) -> Result<Result<Request, WordFault>, Memory>
    ensures { IfOk result (λ asked. asked ≡ wanted_by command now words.now (option_copied attachment.entry)) }
{
    match command {
        Command::Sbatch => read_sbatch(alloc, words, attachment, now),
        Command::Scontrol => read_scontrol(alloc, now, words, attachment),
        _ => {
            let asked = read_alone(alloc, command, now, words)?;
            Ok(without(attachment, asked))
        }
    }
}

// What is told of an attachment where none belongs.
fn stray() -> Result<Request, WordFault>
    ensures { result ≡ stray }
{
    Err(WordFault::Word {
        word: 1,
        kind: WordKind::StrayWord,
    })
}

fn read_scontrol(
    alloc: Global,
    now: u64,
    words: &Words,
    attachment: Option<&[u8]>,
) -> Result<Result<Request, WordFault>, Memory>
    ensures { IfOk result (λ asked. asked ≡ scontrol_with now words.now (option_copied attachment.entry)) }
{
    match attachment {
        Some(text) if is_reconfigure(words) => read_reconfigure(alloc, words, text),
        Some(_) => Ok(stray()),
        None => Ok(by_words(read_alone(alloc, Command::Scontrol, now, words)?)),
    }
}

fn without(attachment: Option<&[u8]>, asked: Result<Request, BadWord>) -> Result<Request, WordFault>
    ensures { result ≡ without (option_copied attachment.entry) asked }
{
    match attachment {
        None => by_words(asked),
        Some(_) => stray(),
    }
}
