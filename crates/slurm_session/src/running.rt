//! The program, over objects of the outside.

ghost use Rattle.std.specs.Prelude.{◌≡◌, None, Some, map, string_bytes, MatchResult};
ghost use Rattle.ctl_desk.specs.Desk.{state_of};
ghost use Rattle.slurm_io.specs.Bytes.{Tells};
ghost use Rattle.session_text.specs.declared.input.Input.TheVariants.{Text};
ghost use Rattle.session_talk.specs.Talk.{scene};
ghost use Rattle.session_text.specs.declared.input.Input.{Input as OneInput};
ghost use Rattle.slurm_session.specs.Command.{asked_in, text_of, words_of};
ghost use Rattle.slurm_session.specs.declared.ending.RunEnd.{RunEnd as OneEnd};
ghost use Rattle.slurm_session.specs.declared.ending.RunEnd.TheVariants.{Usage};
ghost use Rattle.slurm_session.specs.Lines.{line_of, status_of};
ghost use Rattle.slurm_session.specs.Runs.{HasEnded, HasRun, HasTalked, IsTextOf, IsTalkOn, IsUnread, end_without};

use crate::command::asked_in;
use crate::ending::{RunEnd, tell_end};
use crate::opening::open_cluster;
use crate::words::SessionWords;
use ctl_desk::own_desk::OwnDesk;
use session_talk::{Ended, talk};
use session_text::Input;
use slurm_io::{MemSure, Shelf, ShelfRefusal, Sink, Source, read_file};
use small_texts::memory_error::Memory;
use std::alloc::Global;

/// The most bytes of a session's file (own).
const LONGEST_TEXT: u64 = 67_108_864;

// A session on a text.
fn talk_on_text<S: Source, K: Sink, Q: Shelf>(
    alloc: Global,
    desk: OwnDesk,
    source: &S,
    output: &mut K,
    shelf: &mut Q,
    name: &str,
    text: Vec<u8>,
) -> Ended
    ensures talked { IsTalkOn (Q.files shelf.old) name.now text.items (state_of desk)
        (scene (S.left source.now) (S.read_faults source.now) (K.taken output.old) (K.write_faults output.old)
        (Q.shelf_faults shelf.old))
        (scene (S.left source.now) (S.read_faults source.now) (K.taken output.new) (K.write_faults output.new)
        (Q.shelf_faults shelf.new)) result }
    ensures kept { Q.files shelf.new ≡ Q.files shelf.old }
{
    let mut lines = MemSure::new(text);
    talk(
        alloc,
        desk,
        &mut lines,
        output,
        shelf,
        Input::Text,
        name.as_bytes(),
    )
}

// The text of a session's file, or how the run ends without it.
fn read_text<Q: Shelf>(alloc: Global, shelf: &mut Q, name: &str) -> Result<Vec<u8>, RunEnd>
    ensures read { MatchResult result
        (λ text. IsTextOf (Q.files shelf.old) name.now text.items × (Q.shelf_faults shelf.new ≡ Q.shelf_faults shelf.old))
        (λ end. IsUnread (Q.files shelf.old) name.now (Q.shelf_faults shelf.old) (Q.shelf_faults shelf.new) end) }
    ensures kept { Q.files shelf.new ≡ Q.files shelf.old }
{
    match read_file(alloc, shelf, name, LONGEST_TEXT) {
        Ok(text) => {
            if text.len() as u64 > LONGEST_TEXT {
                Err(RunEnd::LongText)
            } else {
                Ok(text)
            }
        }
        Err(ShelfRefusal::Failed) => Err(RunEnd::NoFile),
        Err(ShelfRefusal::Memory) => Err(RunEnd::Memory),
    }
}

// A session of a file.
fn talk_of_file<S: Source, K: Sink, Q: Shelf>(
    alloc: Global,
    desk: OwnDesk,
    source: &S,
    output: &mut K,
    shelf: &mut Q,
    name: &str,
) -> RunEnd
    ensures talked { (input : OneInput) → HasTalked (Q.files shelf.old) input (Some name.now) (state_of desk)
        (scene (S.left source.now) (S.read_faults source.now) (K.taken output.old) (K.write_faults output.old)
        (Q.shelf_faults shelf.old))
        (scene (S.left source.now) (S.read_faults source.now) (K.taken output.new) (K.write_faults output.new)
        (Q.shelf_faults shelf.new)) result }
    ensures kept { Q.files shelf.new ≡ Q.files shelf.old }
{
    match read_text(alloc, shelf, name) {
        Ok(text) => {
            let ended = talk_on_text(alloc, desk, source, output, shelf, name, text);
            RunEnd::Talked(ended)
        }
        Err(end) => {
            desk.let_go();
            end
        }
    }
}

// A session at an opened cluster.
fn talk_at<S: Source, K: Sink, Q: Shelf>(
    alloc: Global,
    desk: OwnDesk,
    source: &mut S,
    output: &mut K,
    shelf: &mut Q,
    input: Input,
    file: Option<&str>,
) -> RunEnd
    ensures talked { HasTalked (Q.files shelf.old) input (text_of file.entry) (state_of desk)
        (scene (S.left source.old) (S.read_faults source.old) (K.taken output.old) (K.write_faults output.old)
        (Q.shelf_faults shelf.old))
        (scene (S.left source.new) (S.read_faults source.new) (K.taken output.new) (K.write_faults output.new)
        (Q.shelf_faults shelf.new)) result }
    ensures kept { Q.files shelf.new ≡ Q.files shelf.old }
{
    match file {
        Some(name) => talk_of_file(alloc, desk, source, output, shelf, name),
        None => RunEnd::Talked(talk(alloc, desk, source, output, shelf, input, b"-")),
    }
}

// Opens the cluster that is asked for, and has the session there.
fn run_asked<S: Source, K: Sink, Q: Shelf>(
    alloc: Global,
    asked: &SessionWords<'_>,
    source: &mut S,
    output: &mut K,
    shelf: &mut Q,
    input: Input,
) -> RunEnd
    ensures ran { HasRun (Q.files shelf.old) input (words_of asked.now)
        (scene (S.left source.old) (S.read_faults source.old) (K.taken output.old) (K.write_faults output.old)
        (Q.shelf_faults shelf.old))
        (scene (S.left source.new) (S.read_faults source.new) (K.taken output.new) (K.write_faults output.new)
        (Q.shelf_faults shelf.new)) result }
    ensures used { (result ≡ Usage) → ⊥ }
    ensures kept { Q.files shelf.new ≡ Q.files shelf.old }
{
    match open_cluster(alloc, &asked.files, shelf) {
        Ok(desk) => talk_at(alloc, desk, source, output, shelf, input, asked.file),
        Err(end) => end,
    }
}

// How the run of these words ends.
#[tactic(auto, using(crate::proofs::Endings::asked_run))]
fn run_words<S: Source, K: Sink, Q: Shelf>(
    alloc: Global,
    words: &[String],
    source: &mut S,
    output: &mut K,
    shelf: &mut Q,
    input: Input,
) -> RunEnd
    ensures ended { HasEnded (Q.files shelf.old) input (map string_bytes words.now)
        (scene (S.left source.old) (S.read_faults source.old) (K.taken output.old) (K.write_faults output.old)
        (Q.shelf_faults shelf.old))
        (scene (S.left source.new) (S.read_faults source.new) (K.taken output.new) (K.write_faults output.new)
        (Q.shelf_faults shelf.new)) result }
    ensures kept { Q.files shelf.new ≡ Q.files shelf.old }
{
    match asked_in(alloc, words) {
        Ok(Some(asked)) => run_asked(alloc, &asked, source, output, shelf, input),
        Ok(None) => RunEnd::Usage,
        Err(Memory) => RunEnd::Memory,
    }
}

/// Why the words behind the program's name are not at hand.
#[derive(Clone, Copy, Debug, PartialEq, Eq)]
pub enum WordsFault {
    /// A word is not UTF-8.
    NotText,
    Memory,
}

/// What the program does where its words are not at hand, and the status that it ends with: that of words that are off,
/// or of want of memory.
pub fn session_without_words<E: Sink>(errors: &mut E, fault: WordsFault) -> u8
    ensures status { result ≡ status_of (end_without fault) }
    ensures errors { Tells (E.taken errors.old) (E.taken errors.new)
        (E.write_faults errors.old) (E.write_faults errors.new) (line_of (end_without fault)) }
{
    let end = match fault {
        WordsFault::NotText => RunEnd::Usage,
        WordsFault::Memory => RunEnd::Memory,
    };
    tell_end(errors, end);
    end.status()
}

/// What the program does with the words behind its name, and the status that it ends with (own). `-f` names the file
/// slurm.conf(5), `-a` the association file, sacctmgr(1), and `--state` a saved state from which the cluster goes on,
/// where there is one. The lines of the session are those of the file that the last word names, or without one of the
/// source, which may be a terminal's. All that the session says goes to the output, and the end to the errors where it
/// isn't that of the lines.
pub fn session_run<S: Source, K: Sink, E: Sink, Q: Shelf>(
    alloc: Global,
    words: &[String],
    source: &mut S,
    output: &mut K,
    errors: &mut E,
    shelf: &mut Q,
    input: Input,
) -> u8
    // The run has one of the ends, and leaves what that says; the status and the line of the errors are that end's.
    ensures ran { (end : OneEnd) × (result ≡ status_of end)
        × HasEnded (Q.files shelf.old) input (map string_bytes words.now)
        (scene (S.left source.old) (S.read_faults source.old) (K.taken output.old) (K.write_faults output.old)
        (Q.shelf_faults shelf.old))
        (scene (S.left source.new) (S.read_faults source.new) (K.taken output.new) (K.write_faults output.new)
        (Q.shelf_faults shelf.new)) end
        × Tells (E.taken errors.old) (E.taken errors.new) (E.write_faults errors.old) (E.write_faults errors.new)
        (line_of end) }
    ensures usage { (result ≡ 2) → asked_in (map string_bytes words.now) ≡ None }
{
    let end = run_words(alloc, words, source, output, shelf, input);
    tell_end(errors, end);
    end.status()
}
