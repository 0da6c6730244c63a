//! The words of commands that have no attachment.

ghost use Rattle.std.specs.Prelude.{◌≡◌, IfOk};
ghost use Rattle.command_words.specs.Wanted.{alone_by};

use crate::cancel::read_scancel;
use crate::command::Command;
use crate::queries::{read_sinfo, read_sprio, read_squeue};
use crate::report::read_report;
use line_words::words::Words;
use operands::bad_word::{BadWord, WordKind, fault_of};
use operands::operand::closed_at;
use request_data::request::Request;
use scontrol_words::scontrol::read_scontrol;
use small_texts::memory_error::Memory;
use std::alloc::Global;

/// Reads the words of a command other than sbatch(1) at the moment `now`, the first of which is its name: what they ask
/// for, or the first that is wrong.
#[tactic(auto, unfolding(crate::specs::Wanted::alone_by))]
pub fn read_alone(
    alloc: Global,
    command: Command,
    now: u64,
    words: &Words,
) -> Result<Result<Request, BadWord>, Memory>
    ensures { IfOk result (λ asked. asked ≡ alone_by command now words.now) }
{
    match command {
        Command::Sbatch => Ok(Err(fault_of(1, WordKind::StrayWord))),
        Command::Squeue => Ok(read_squeue(alloc, words)?.map(Request::Show)),
        Command::Scancel => Ok(read_scancel(alloc, words)?.map(Request::Cancel)),
        Command::Scontrol => read_scontrol(alloc, now, words),
        Command::Sinfo => Ok(read_sinfo(alloc, words)?.map(Request::Show)),
        Command::Sprio => Ok(read_sprio(alloc, words)?.map(Request::Show)),
        Command::Report => Ok(read_report(alloc, words)?.map(Request::Report)),
        Command::Pass => Ok(closed_at(words, 1, Request::Pass)),
    }
}
