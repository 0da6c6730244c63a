//! The program, over objects of the outside.

ghost use Rattle.std.specs.Prelude.{◌≡◌, ◌⊎◌, ◌≤◌, ℕ, Bool, true, List, Option, Some, None, IfSome, IsSomeAnd, Err, Ok, [], length, map, string_bytes};
ghost use Rattle.std.specs.Io.KnownBytes.{Appends};
ghost use Rattle.assoc_reader.specs.declared.refusal.AssocKind.{AssocKind};
ghost use Rattle.cluster_opening.specs.Files.{FilesOpen};
ghost use Rattle.cluster_opening.specs.declared.refusal.BadFile.{BadFile};
ghost use Rattle.cluster_opening.specs.declared.refusal.ClusterRefusal.{ClusterRefusal};
ghost use Rattle.text_values.specs.declared.conf_refusal.ConfKind.{ConfKind};
ghost use Rattle.ctl_state.specs.State.{State};
ghost use Rattle.generator.specs.Generated.{generated};
ghost use Rattle.plain_data.specs.Files.{Named};
ghost use Rattle.program_words.specs.Asked.{Generate, Script, Serve, Simulate, asked_in};
ghost use Rattle.program_words.specs.Asked as asks;
ghost use Rattle.program_words.specs.Words.{Fits, asked_of};
ghost use Rattle.plain_data.specs.declared.period.Period.{Period};
ghost use Rattle.program_words.specs.declared.call.Call.{Call};
ghost use Rattle.session_laws.specs.ScriptInputs.{IsBroken, IsTooLong};
ghost use Rattle.slurm_top.specs.Outside.{beside, outside};
ghost use Rattle.simulation.specs.Simulation.{Simulated, summary};
ghost use Rattle.slurm_io.specs.Bytes.{Tells};
ghost use Rattle.slurm_io.specs.Faults.{CountsNone, CountsOne};
ghost use Rattle.slurm_top.specs.Lines.{status_of, line_of};
ghost use Rattle.slurm_top.specs.Run.{end_without_words, IsEnd, IsEndAsked, IsCallKnown, Finds, IsUnsaved, IsWholeScript, HasEnded, hosted};
ghost use Rattle.slurm_top.specs.SimulatedCluster.{simulation_of};

use crate::call_server;
use crate::end::{End, tell};
use crate::files_run::run_on_files;
use crate::generate::write_generated;
use crate::serving::serve_files;
use crate::simulated::write_summary;
use cluster_opening::files_open_one_cluster;
use program_words::{Asked, asked_in};
use script_run::whole_inputs_are_answered;
use session_laws::{broken_inputs_are_told, longer_inputs_are_spent};
use slurm_io::{Link, Shelf, Sink};
use slurm_net::{Clock, Door, Host};
use small_texts::memory_error::Memory;
use std::alloc::Global;
use std::sync::Wait;
use std::thread::Threads;

// How the run ends of what words ask.
fn run_asked<R: Threads + Wait + Sync, Q: Shelf, L: Link, E: Sink, C: Clock + Send + Drop, H: Host>(
    rt: &R,
    alloc: Global,
    asked: &Asked<'_>,
    shelf: &mut Q,
    link: &mut L,
    errors: &mut E,
    clock: &mut C,
    host: &mut H,
) -> End
where
    H::Door: Send + Drop,
    <H::Door as Door>::Link: Send,
    requires { Fits asked.now }
    ensures { IsEndAsked (asked_of asked.now) (hosted (C.course clock.old) (H.closed host.new))
        (outside (Q.files shelf.old) (Q.shelf_faults shelf.old) (L.wire link.old))
        (outside (Q.files shelf.new) (Q.shelf_faults shelf.new) (L.wire link.new))
        (beside (E.taken errors.old) (E.write_faults errors.old) (H.hosting host.old))
        (beside (E.taken errors.new) (E.write_faults errors.new) (H.hosting host.new)) result }
{
    match asked {
        Asked::Script(words) => run_on_files(alloc, words, shelf, link),
        Asked::Serve(words) => serve_files(rt, alloc, words, shelf, link, clock, host),
        Asked::Generate(number) => write_generated(alloc, *number, link),
        Asked::Simulate(number) => write_summary(alloc, *number, link),
        Asked::Call(call) => {
            let end = call_server(alloc, call, shelf, link, errors, host);
            End::Called(end)
        }
    }
}

// How the run of these words ends.
fn run_words<R: Threads + Wait + Sync, Q: Shelf, L: Link, E: Sink, C: Clock + Send + Drop, H: Host>(
    rt: &R,
    alloc: Global,
    words: &[String],
    shelf: &mut Q,
    link: &mut L,
    errors: &mut E,
    clock: &mut C,
    host: &mut H,
) -> End
where
    H::Door: Send + Drop,
    <H::Door as Door>::Link: Send,
    ensures { IsEnd (map string_bytes words.now) (hosted (C.course clock.old) (H.closed host.new))
        (outside (Q.files shelf.old) (Q.shelf_faults shelf.old) (L.wire link.old))
        (outside (Q.files shelf.new) (Q.shelf_faults shelf.new) (L.wire link.new))
        (beside (E.taken errors.old) (E.write_faults errors.old) (H.hosting host.old))
        (beside (E.taken errors.new) (E.write_faults errors.new) (H.hosting host.new)) result }
{
    let asked = match asked_in(alloc, words) {
        Ok(Some(asked)) => asked,
        Ok(None) => return End::Usage,
        Err(Memory) => return End::Memory,
    };
    run_asked(rt, alloc, &asked, shelf, link, errors, clock, host)
}

/// Why the words behind the program's name are not at hand.
#[derive(Clone, Copy, Debug, PartialEq, Eq)]
pub enum WordsFault {
    /// A word is not UTF-8.
    NotText,
    Memory,
}

/// What the program does where its words are not at hand, and the status that it ends with: that of words that are off,
/// or of want of memory.
pub fn run_without_words<E: Sink>(errors: &mut E, fault: WordsFault) -> u8
    ensures status { result ≡ status_of (end_without_words fault) }
    ensures errors { Tells (E.taken errors.old) (E.taken errors.new)
        (E.write_faults errors.old) (E.write_faults errors.new) (line_of (end_without_words fault)) }
{
    let end = match fault {
        WordsFault::NotText => End::Usage,
        WordsFault::Memory => End::Memory,
    };
    tell(errors, end);
    end.status()
}

/// What the program does with the words behind its name, and the status that it ends with. With `--script` it reads the
/// file slurm.conf(5) that `-f` names, the association file, sacctmgr(1), that `-a` names, and the saved state that
/// `--state` names, and answers the blocks of the link's input on its output by a controller of that cluster; behind the
/// answers come the sums of the period that `--sacct` names, and the state with `--save`. With `--serve` it serves that
/// cluster on a port of this machine until a shutdown is accepted, and writes one line once its doors are open, and with
/// `--save` the state in the end. With `--generate` it writes the script that a number stands for on the link's output,
/// and reads nothing; with `--run` beside that it simulates the jobs of that script, and writes the line that tells of it.
/// Behind the name of another command it calls a server of this machine by the host.
///
/// All but a server is proved to return: a shutdown may never come.
pub fn run<R: Threads + Wait + Sync, Q: Shelf, L: Link, E: Sink, C: Clock + Send + Drop, H: Host>(
    rt: &R,
    alloc: Global,
    words: &[String],
    shelf: &mut Q,
    link: &mut L,
    errors: &mut E,
    clock: &mut C,
    host: &mut H,
) -> u8
where
    H::Door: Send + Drop,
    <H::Door as Door>::Link: Send,
    // The run has one of the ends; it leaves what that says, where the errors took so much. The status is that end's, and
    // so is the line that the errors took behind that, of which a beginning was taken where its writing fails.
    ensures ended { (end : End) × (errors_taken : Option (List ℕ)) × (errors_faults : ℕ) × (result ≡ status_of end)
        × Tells errors_taken (E.taken errors.new) errors_faults (E.write_faults errors.new) (line_of end)
        × IsEnd (map string_bytes words.now) (hosted (C.course clock.old) (H.closed host.new))
        (outside (Q.files shelf.old) (Q.shelf_faults shelf.old) (L.wire link.old))
        (outside (Q.files shelf.new) (Q.shelf_faults shelf.new) (L.wire link.new))
        (beside (E.taken errors.old) (E.write_faults errors.old) (H.hosting host.old))
        (beside errors_taken errors_faults (H.hosting host.new)) end }

    // The words are off exactly where the status says so, but for want of memory.
    ensures usage { (result ≡ 2) → asked_in (map string_bytes words.now) ≡ None }
    ensures off { asked_in (map string_bytes words.now) ≡ None → (result ≡ 2) ⊎ (result ≡ 8) }

    // Where the shelf tells its files: where one that the words name is missing this is told by 5, and a bad slurm.conf by
    // 3, a bad association file by 4 and a bad saved state by 11 unless a read fails, but for want of memory.
    ensures missing { Finds (map string_bytes words.now) (Q.files shelf.old) None → (result ≡ 5) ⊎ (result ≡ 8) }
    ensures bad_conf { (line : ℕ) → (kind : ConfKind)
        → Finds (map string_bytes words.now) (Q.files shelf.old) (Some (Err (ClusterRefusal.Bad (BadFile.Conf line kind))))
        → CountsNone (Q.shelf_faults shelf.old) (Q.shelf_faults shelf.new) → (result ≡ 3) ⊎ (result ≡ 8) }
    ensures bad_assocs { (line : ℕ) → (kind : AssocKind)
        → Finds (map string_bytes words.now) (Q.files shelf.old) (Some (Err (ClusterRefusal.Bad (BadFile.Assocs line kind))))
        → CountsNone (Q.shelf_faults shelf.old) (Q.shelf_faults shelf.new) → (result ≡ 4) ⊎ (result ≡ 8) }
    ensures bad_state { (line : ℕ)
        → Finds (map string_bytes words.now) (Q.files shelf.old) (Some (Err (ClusterRefusal.Bad (BadFile.State line))))
        → CountsNone (Q.shelf_faults shelf.old) (Q.shelf_faults shelf.new) → (result ≡ 11) ⊎ (result ≡ 8) }

    // Good files and an input of whole blocks, no more than one session answers, are answered to the end, and what is
    // asked for is written behind them, unless a count of faults rises, memory is wanting, or the text of a state that is
    // to be saved is longer than one may be.
    ensures complete { (named : Named) (sacct : Option Period) (save : Bool) (opening : State)
        → asked_in (map string_bytes words.now) ≡ Some (Script named sacct save)
        → FilesOpen (Q.files shelf.old) named (Some (Ok opening))
        → IsWholeScript opening save (L.wire link.old).left
        → CountsNone (Q.shelf_faults shelf.old) (Q.shelf_faults shelf.new)
        → CountsNone (L.wire link.old).reads (L.wire link.new).reads
        → CountsNone (L.wire link.old).writes (L.wire link.new).writes
        → (result ≡ 0) ⊎ (result ≡ 8) }

    // The status 7 is that such an input has, behind fewer blocks than one session answers, something that is none: a part
    // of a block, or what can't begin one. It comes exactly there, but for a count of faults and want of memory.
    ensures broken { (named : Named) (sacct : Option Period) (save : Bool) (opening : State)
        → asked_in (map string_bytes words.now) ≡ Some (Script named sacct save)
        → FilesOpen (Q.files shelf.old) named (Some (Ok opening))
        → IsSomeAnd (L.wire link.old).left IsBroken
        → CountsNone (Q.shelf_faults shelf.old) (Q.shelf_faults shelf.new)
        → CountsNone (L.wire link.old).reads (L.wire link.new).reads
        → CountsNone (L.wire link.old).writes (L.wire link.new).writes
        → (result ≡ 7) ⊎ (result ≡ 8) }
    ensures only_broken { (named : Named) (sacct : Option Period) (save : Bool)
        → asked_in (map string_bytes words.now) ≡ Some (Script named sacct save) → (result ≡ 7)
        → IfSome (L.wire link.old).left IsBroken }

    // 9 is that it has more than one session answers, or is answered to the end and leads to a state that is to be saved and
    // whose text is longer than one may be: exactly there, likewise.
    ensures spent { (named : Named) (sacct : Option Period) (save : Bool) (opening : State)
        → asked_in (map string_bytes words.now) ≡ Some (Script named sacct save)
        → FilesOpen (Q.files shelf.old) named (Some (Ok opening))
        → IsSomeAnd (L.wire link.old).left (IsTooLong opening save)
        → CountsNone (Q.shelf_faults shelf.old) (Q.shelf_faults shelf.new)
        → CountsNone (L.wire link.old).reads (L.wire link.new).reads
        → CountsNone (L.wire link.old).writes (L.wire link.new).writes
        → (result ≡ 9) ⊎ (result ≡ 8) }
    ensures only_spent { (named : Named) (sacct : Option Period) (save : Bool) (opening : State)
        → asked_in (map string_bytes words.now) ≡ Some (Script named sacct save)
        → FilesOpen (Q.files shelf.old) named (Some (Ok opening)) → (result ≡ 9)
        → IfSome (L.wire link.old).left (IsTooLong opening save) }

    // A server of good files ends by a shutdown, unless a count of faults rises or memory is wanting; 9 comes only where
    // the state is to be saved, and is that its text is longer than one may be.
    ensures served { (named : Named) (port workers : ℕ) (save : Bool) (opening : State)
        → asked_in (map string_bytes words.now) ≡ Some (Serve named port workers save)
        → FilesOpen (Q.files shelf.old) named (Some (Ok opening))
        → CountsNone (Q.shelf_faults shelf.old) (Q.shelf_faults shelf.new)
        → CountsNone (L.wire link.old).writes (L.wire link.new).writes
        → CountsNone (H.hosting host.old).faults (H.hosting host.new).faults
        → (result ≡ 0) ⊎ ((result ≡ 8) ⊎ ((result ≡ 9) × (save ≡ true))) }

    // A server's 0 is that it was served until a shutdown was accepted, that the line and what is to be saved behind it
    // were written, and that no door failed: the host counted no fault; 9 is that what is to be saved was too long. 6 comes
    // only where a write of these failed, and 10 only where the host counted a fault.
    ensures shut { (named : Named) (port workers : ℕ) (save : Bool)
        → asked_in (map string_bytes words.now) ≡ Some (Serve named port workers save) → (result ≡ 0)
        → HasEnded named port workers save (hosted (C.course clock.old) (H.closed host.new))
        (outside (Q.files shelf.old) (Q.shelf_faults shelf.old) (L.wire link.old))
        (outside (Q.files shelf.new) (Q.shelf_faults shelf.new) (L.wire link.new)) }
    ensures unfailed { (named : Named) (port workers : ℕ) (save : Bool)
        → asked_in (map string_bytes words.now) ≡ Some (Serve named port workers save) → (result ≡ 0)
        → (H.hosting host.new).faults ≡ (H.hosting host.old).faults }
    ensures unsaved { (named : Named) (port workers : ℕ) (save : Bool)
        → asked_in (map string_bytes words.now) ≡ Some (Serve named port workers save) → (result ≡ 9)
        → IsUnsaved named port workers save (hosted (C.course clock.old) (H.closed host.new))
        (outside (Q.files shelf.old) (Q.shelf_faults shelf.old) (L.wire link.old))
        (outside (Q.files shelf.new) (Q.shelf_faults shelf.new) (L.wire link.new)) }
    ensures write_fault { (named : Named) (port workers : ℕ) (save : Bool)
        → asked_in (map string_bytes words.now) ≡ Some (Serve named port workers save) → (result ≡ 6)
        → CountsOne (L.wire link.old).writes (L.wire link.new).writes }
    ensures door_fault { (named : Named) (port workers : ℕ) (save : Bool)
        → asked_in (map string_bytes words.now) ≡ Some (Serve named port workers save) → (result ≡ 10)
        → CountsOne (H.hosting host.old).faults (H.hosting host.new).faults }

    // The script that the words' number stands for is written whole, unless a write fails, or memory is wanting and
    // nothing is written.
    ensures generated { (number : ℕ)
        → asked_in (map string_bytes words.now) ≡ Some (Generate number)
        → CountsNone (L.wire link.old).writes (L.wire link.new).writes
        → ((result ≡ 0) × Appends (L.wire link.old).taken (L.wire link.new).taken (generated number))
        ⊎ ((result ≡ 8) × (L.wire link.new ≡ L.wire link.old)) }

    // Likewise the line that tells of the simulation of the words' number; where none ends, the status says so.
    ensures simulated { (number : ℕ) (sim : Simulated)
        → asked_in (map string_bytes words.now) ≡ Some (Simulate number)
        → simulation_of number ≡ Ok (Some sim)
        → CountsNone (L.wire link.old).writes (L.wire link.new).writes
        → ((result ≡ 0) × Appends (L.wire link.old).taken (L.wire link.new).taken (summary sim.tally))
        ⊎ ((result ≡ 8) × (L.wire link.new ≡ L.wire link.old)) }
    ensures endless { (number : ℕ)
        → asked_in (map string_bytes words.now) ≡ Some (Simulate number)
        → simulation_of number ≡ Ok None
        → ((result ≡ 9) ⊎ (result ≡ 8)) × (L.wire link.new ≡ L.wire link.old) }

    // No simulation ends otherwise: its cluster's own files are good.
    ensures simulates { (number : ℕ)
        → asked_in (map string_bytes words.now) ≡ Some (Simulate number)
        → CountsNone (L.wire link.old).writes (L.wire link.new).writes
        → (result ≡ 0) ⊎ ((result ≡ 9) ⊎ (result ≡ 8)) }

    // A call of a server ends by the reply that its link has left, where the host tells this, and by a fault only where a
    // count rose.
    ensures called { (call : Call) → asked_in (map string_bytes words.now) ≡ Some (asks.Call call)
        → IsCallKnown call
        (outside (Q.files shelf.old) (Q.shelf_faults shelf.old) (L.wire link.old))
        (outside (Q.files shelf.new) (Q.shelf_faults shelf.new) (L.wire link.new))
        (H.hosting host.old) (H.hosting host.new) result }
{
    whole_inputs_are_answered();
    broken_inputs_are_told();
    longer_inputs_are_spent();
    files_open_one_cluster();
    let end = run_words(rt, alloc, words, shelf, link, errors, clock, host);
    tell(errors, end);
    end.status()
}
