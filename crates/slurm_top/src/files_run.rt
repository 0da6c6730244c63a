//! A script on the cluster of some files.

ghost use Rattle.std.specs.Prelude.{◌≡◌};
ghost use Rattle.plain_data.specs.Files.{named_by};
ghost use Rattle.slurm_top.specs.Outside.{outside};
ghost use Rattle.cluster_opening.specs.Restoring.{OpensIn};
ghost use Rattle.ctl_state.specs.State.{State};
ghost use Rattle.script_run.specs.Behind.{IsScriptRun};
ghost use Rattle.slurm_top.specs.Run.{IsEndOn};
ghost use Rattle.slurm_top.specs.Opened.{IsRunThere};

use crate::end::{End, end_unopened};
use cluster_opening::{ClusterFiles, desk, open_files};
use program_words::ScriptWords;
use script_run::run_script;
use slurm_io::{Link, Shelf};
use small_texts::memory_error::Memory;
use std::alloc::Global;

// Runs the script at a desk of these files.
fn run_there<L: Link>(
    alloc: Global,
    files: &ClusterFiles,
    words: &ScriptWords<'_>,
    link: &mut L,
) -> End
    requires good { (s : State) × OpensIn files.now s }
    ensures { (s : State) → OpensIn files.now s
        → IsRunThere s words.now.sacct words.now.save (L.wire link.old) (L.wire link.new) result }
{
    match desk(alloc, files) {
        Ok(desk) => End::Script(run_script(alloc, files, desk, link, words.sacct, words.save)),
        Err(Memory) => End::Memory,
    }
}

/// Opens the cluster of the words' files, and runs the script there.
pub(crate) fn run_on_files<Q: Shelf, L: Link>(
    alloc: Global,
    words: &ScriptWords<'_>,
    shelf: &mut Q,
    link: &mut L,
) -> End
    ensures { IsEndOn (named_by words.now.files) words.now.sacct words.now.save
        (outside (Q.files shelf.old) (Q.shelf_faults shelf.old) (L.wire link.old))
        (outside (Q.files shelf.new) (Q.shelf_faults shelf.new) (L.wire link.new)) result }
{
    match open_files(alloc, &words.files, shelf) {
        Ok(files) => run_there(alloc, &files, words, link),
        Err(refusal) => end_unopened(refusal),
    }
}
