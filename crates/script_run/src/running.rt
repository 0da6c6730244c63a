//! The run of a script.

ghost use Rattle.std.specs.Prelude.{◌≡◌};
ghost use Rattle.ctl_desk.specs.History.{history_in, present};
ghost use Rattle.cluster_opening.specs.Files.{fresh};
ghost use Rattle.cluster_opening.specs.Restoring.{OpensIn};
ghost use Rattle.script_run.specs.Behind.{IsEndBehind, IsScriptRun, saved_if, text_behind};

use crate::answering::answer_script;
use crate::behind::{text_behind, write_behind};
use crate::saving::SaveRefusal;
use cluster_opening::ClusterFiles;
use ctl_desk::book::Book;
use ctl_desk::own_desk::OwnDesk;
use ctl_session::How;
use plain_data::period::Period;
use slurm_io::Link;
use std::alloc::Global;

// Ends the run of a script that ended at this book.
fn end_at<L: Link>(
    alloc: Global,
    files: &ClusterFiles,
    book: Book,
    link: &mut L,
    sacct: Option<Period>,
    save: bool,
) -> How
    requires good { OpensIn files.now book.opening }
    ensures { IsEndBehind (text_behind sacct save (history_in book)) (saved_if save (present (history_in book)))
        (L.wire link.old) (L.wire link.new) result }
{
    match text_behind(alloc, files, book, sacct, save) {
        Ok(text) => write_behind(link, text.as_slice()),
        Err(SaveRefusal::TooLong) => How::Spent,
        Err(SaveRefusal::Memory) => How::Memory,
    }
}

/// Answers the blocks of a link's input on its output, at the desk of these files, at which no one has asked anything.
/// Behind the last answer it writes the sums of a period, where some are asked for, and then the state, where it is to be
/// saved: both in one piece, which is made before any of it is written.
pub fn run_script<L: Link>(
    alloc: Global,
    files: &ClusterFiles,
    desk: OwnDesk,
    link: &mut L,
    sacct: Option<Period>,
    save: bool,
) -> How
    requires good { OpensIn files.now desk.opening }
    requires fresh { desk ≡ fresh desk.opening }
    ensures { IsScriptRun desk.opening sacct save (L.wire link.old) (L.wire link.new) result }
{
    let mut desk = desk;
    match answer_script(alloc, &mut desk, link) {
        How::Closed => end_at(alloc, files, desk.into_book(), link, sacct, save),
        how => {
            desk.let_go();
            how
        }
    }
}
