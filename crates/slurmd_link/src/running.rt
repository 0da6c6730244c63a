//! The program, over objects of the outside.

ghost use Rattle.std.specs.Prelude.{◌≡◌, ◌⊎◌, ℕ, List, map, string_bytes};
ghost use Rattle.std.specs.Io.KnownBytes.{Appends};
ghost use Rattle.slurm_io.specs.Bytes.{Tells};
ghost use Rattle.slurm_io.specs.Faults.{CountsOne};
ghost use Rattle.slurm_client.specs.Calling.{sinks};
ghost use Rattle.node_daemon.specs.Daemon.{started};
ghost use Rattle.slurmd_link.specs.Asked.{IsAsked};
ghost use Rattle.slurmd_link.specs.Lines.{IsTold, line_without, status_without, turns_line};
ghost use Rattle.slurmd_link.specs.Runs.{HasEnded, HasRun, outside};
ghost use Rattle.slurmd_link.specs.declared.ending.SlurmdEnd.{SlurmdEnd};
ghost use Rattle.slurmd_link.specs.declared.words.SlurmdWords.{SlurmdWords};

use crate::ending::{SlurmdEnd, tell_cause, tell_end};
use crate::link::link_run;
use crate::words::{SlurmdWords, read_words};
use node_daemon::daemon::DaemonState;
use slurm_io::Sink;
use slurm_net::{Clock, Host};
use small_texts::memory_error::Memory;
use std::alloc::Global;

// Dials the port, lets the daemon make its turns over that link and hangs it up.
fn run_over<C: Clock, H: Host>(
    alloc: Global,
    asked: &SlurmdWords,
    daemon: &mut DaemonState,
    clock: &mut C,
    host: &mut H,
) -> SlurmdEnd
    requires { daemon.old ≡ started asked.now.node asked.now.boot }
    ensures { HasRun asked.now
        (outside (C.moments clock.old) (H.hosting host.old))
        (outside (C.moments clock.new) (H.hosting host.new)) result }
{
    let Ok(mut link) = host.dial(asked.port) else {
        return SlurmdEnd::DoorFault;
    };
    let end = link_run(alloc, &mut link, &asked.user, daemon, clock, asked.turns);
    host.hang_up(link);
    SlurmdEnd::Linked(end)
}

// Lets the daemon that is asked for make its turns.
fn run_asked<C: Clock, H: Host>(
    alloc: Global,
    asked: &SlurmdWords,
    clock: &mut C,
    host: &mut H,
) -> SlurmdEnd
    ensures { HasRun asked.now
        (outside (C.moments clock.old) (H.hosting host.old))
        (outside (C.moments clock.new) (H.hosting host.new)) result }
{
    match DaemonState::new(alloc, &asked.node, asked.boot) {
        Ok(daemon) => {
            let mut daemon = daemon;
            run_over(alloc, asked, &mut daemon, clock, host)
        }
        Err(Memory) => SlurmdEnd::Memory,
    }
}

// How the run of these words ends.
fn run_words<C: Clock, H: Host>(
    alloc: Global,
    words: &[String],
    clock: &mut C,
    host: &mut H,
) -> SlurmdEnd
    ensures { HasEnded (map string_bytes words.now)
        (outside (C.moments clock.old) (H.hosting host.old))
        (outside (C.moments clock.new) (H.hosting host.new)) result }
{
    match read_words(alloc, words) {
        Ok(Some(asked)) => run_asked(alloc, &asked, clock, host),
        Ok(None) => SlurmdEnd::Usage,
        Err(Memory) => SlurmdEnd::Memory,
    }
}

/// Why the words behind the program's name are not at hand.
#[derive(Clone, Copy, Debug, PartialEq, Eq)]
pub enum WordsFault {
    /// A word is not UTF-8.
    NotText,
    Memory,
}

/// What slurmd does where its words are not at hand, and the status that it ends with: that of words that are off, or of
/// want of memory.
pub fn slurmd_without_words<E: Sink>(errors: &mut E, fault: WordsFault) -> u8
    ensures status { result ≡ status_without fault }
    ensures errors { Tells (E.taken errors.old) (E.taken errors.new)
        (E.write_faults errors.old) (E.write_faults errors.new) (line_without fault) }
{
    match fault {
        WordsFault::NotText => {
            tell_cause(errors, "usage");
            2
        }
        WordsFault::Memory => {
            tell_cause(errors, "memory");
            8
        }
    }
}

/// What slurmd does with the words behind its name, and the status that it ends with (own). The words are `--node=NAME`,
/// `--boot=B`, `--ctld=USER@PORT` and `--turns=N`, each once and in any order: the daemon of that node, in that one of its
/// lives, dials the port and makes so many turns. In each it reports to the controller as that user, and takes the orders
/// that answer it. It begins with nothing that runs, so what ran in an earlier life of it is lost.
pub fn slurmd_run<K: Sink, E: Sink, C: Clock, H: Host>(
    alloc: Global,
    words: &[String],
    output: &mut K,
    errors: &mut E,
    clock: &mut C,
    host: &mut H,
) -> u8
    // The run has one of the ends, and leaves what that says; the status and what is told are that end's.
    ensures ran { (end : SlurmdEnd) × HasEnded (map string_bytes words.now)
        (outside (C.moments clock.old) (H.hosting host.old))
        (outside (C.moments clock.new) (H.hosting host.new)) end
        × IsTold end
        (sinks (K.taken output.old) (K.write_faults output.old) (E.taken errors.old) (E.write_faults errors.old))
        (sinks (K.taken output.new) (K.write_faults output.new) (E.taken errors.new) (E.write_faults errors.new))
        result }

    // The words are off exactly where the status says so, but for want of memory.
    ensures usage { (result ≡ 2) → (asked : SlurmdWords) → ¬ IsAsked (map string_bytes words.now) asked }
    ensures off { ((asked : SlurmdWords) → ¬ IsAsked (map string_bytes words.now) asked) → (result ≡ 2) ⊎ (result ≡ 8) }

    // After 0 all turns that were asked for were made, and the output took the line that says so.
    ensures done { (result ≡ 0) → (asked : SlurmdWords) × IsAsked (map string_bytes words.now) asked
        × Appends (K.taken output.old) (K.taken output.new) (turns_line asked.turns) }

    // A fault is told only where a count rose.
    ensures read_fault { (result ≡ 5) → CountsOne (H.hosting host.old).link_reads (H.hosting host.new).link_reads }
    ensures write_fault { (result ≡ 6) → CountsOne (H.hosting host.old).link_writes (H.hosting host.new).link_writes
        ⊎ CountsOne (K.write_faults output.old) (K.write_faults output.new) }
    ensures door_fault { (result ≡ 10) → CountsOne (H.hosting host.old).faults (H.hosting host.new).faults }
{
    let end = run_words(alloc, words, clock, host);
    tell_end(output, errors, end)
}
