//! What is written behind a script's answers.

ghost use Rattle.std.specs.Prelude.{◌≡◌, ◌<◌, ◌≤◌, ◌++◌, IfOk, IsErrOf, OnOk, length};
ghost use Rattle.ctl_desk.specs.History.{history_in, present};
ghost use Rattle.cluster_opening.specs.Restoring.{OpensIn};
ghost use Rattle.saved_data.specs.Sizes.{longest_text};
ghost use Rattle.script_run.specs.Behind.{IsWrittenBehind, saved_if, text_behind};

use crate::saving::{SaveRefusal, saved_text};
use crate::sums::sums_text;
use cluster_opening::ClusterFiles;
use ctl_core::controller::Ctl;
use ctl_desk::book::Book;
use ctl_session::How;
use plain_data::period::Period;
use slurm_io::{Failed, Link, write_all};
use small_texts::memory_error::Memory;
use std::alloc::Global;

// Adds the text of a state, where it is to be saved.
fn push_saved(alloc: Global, text: &mut Vec<u8>, ctl: &Ctl, save: bool) -> Result<(), SaveRefusal>
    ensures text { OnOk result (text.new.items ≡ text.old.items ++ saved_if save ctl.now.state) }
    ensures short { OnOk result (length (saved_if save ctl.now.state) ≤ longest_text) }
    ensures long { IsErrOf result SaveRefusal.TooLong → longest_text < length (saved_if save ctl.now.state) }
{
    if !save {
        return Ok(());
    }
    let saved = saved_text(alloc, ctl)?;
    match text.extend_from_slice(saved.as_slice()) {
        Ok(()) => Ok(()),
        Err(_) => Err(SaveRefusal::Memory),
    }
}

// This text, and behind it that of a state, where it is to be saved.
fn with_saved(alloc: Global, text: Vec<u8>, ctl: &Ctl, save: bool) -> Result<Vec<u8>, SaveRefusal>
    ensures text { IfOk result (λ whole. whole.items ≡ text.items ++ saved_if save ctl.now.state) }
    ensures short { OnOk result (length (saved_if save ctl.now.state) ≤ longest_text) }
    ensures long { IsErrOf result SaveRefusal.TooLong → longest_text < length (saved_if save ctl.now.state) }
{
    let mut whole = text;
    match push_saved(alloc, &mut whole, ctl, save) {
        Ok(()) => Ok(whole),
        Err(refusal) => Err(refusal),
    }
}

/// What is written behind the answers of a script that ended at this book.
pub(crate) fn text_behind(
    alloc: Global,
    files: &ClusterFiles,
    book: Book,
    sacct: Option<Period>,
    save: bool,
) -> Result<Vec<u8>, SaveRefusal>
    requires good { OpensIn files.now book.opening }
    ensures text { IfOk result (λ text. text.items ≡ text_behind sacct save (history_in book)) }
    ensures short { OnOk result (length (saved_if save (present (history_in book))) ≤ longest_text) }
    ensures long { IsErrOf result SaveRefusal.TooLong
        → longest_text < length (saved_if save (present (history_in book))) }
{
    let (ctl, entries) = book.into_parts();
    let text = match sums_text(alloc, files, entries, sacct) {
        Ok(text) => with_saved(alloc, text, &ctl, save),
        Err(Memory) => Err(SaveRefusal::Memory),
    };
    ctl.let_go();
    text
}

/// Writes it, in one piece.
pub(crate) fn write_behind<L: Link>(link: &mut L, text: &[u8]) -> How
    ensures { IsWrittenBehind text.now (L.wire link.old) (L.wire link.new) result }
{
    match write_all(link, text) {
        Ok(()) => How::Closed,
        Err(Failed) => How::WriteFault,
    }
}
