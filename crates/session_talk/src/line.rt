//! One line of a session, worked.

ghost use Rattle.std.specs.Prelude.{◌≡◌, ℕ, [], ◌∷◌, List, option_copied, option_map};
ghost use Rattle.ctl_desk.specs.Desk.{state_of};
ghost use Rattle.ctl_state.specs.State.{State};
ghost use Rattle.session_text.specs.Heard.{heard_in, reader_after};
ghost use Rattle.session_text.specs.declared.reader.Heard.TheVariants as spec;
ghost use Rattle.session_text.specs.Actions.{Tells, is_quit};
ghost use Rattle.session_text.specs.CallTexts.{behind, help_text};
ghost use Rattle.session_talk.specs.Working.{Works, WorksHeard, WorksLine, WorksTurned, Writes, out};

use crate::asking::work_call;
use crate::fault::Fault;
use crate::writing::{tell_wrong, write_text};
use ctl_desk::own_desk::OwnDesk;
use session_text::{Call, Heard, Input, Place, Reader, hear, help, read_script};
use slurm_io::{Shelf, Sink};
use std::alloc::Global;

// The bytes of what was read of a file.
fn bytes_of(file: &Option<Vec<u8>>) -> Option<&[u8]>
    ensures { option_copied result ≡ option_map (λ text. text.items) file.now }
{
    match file {
        Some(text) => Some(text.as_slice()),
        None => None,
    }
}

// Reads the file that a call names, where it names one, and works the call.
fn read_and_work<K: Sink, Q: Shelf>(
    alloc: Global,
    desk: &mut OwnDesk,
    output: &mut K,
    shelf: &mut Q,
    place: &Place<'_>,
    call: &Call,
) -> Result<bool, Fault>
    ensures works { WorksHeard (Q.files shelf.old) (Q.shelf_faults shelf.old) (Q.shelf_faults shelf.new)
        place.now.name.now place.now.number (spec.Asks call.now) (state_of desk.old) (state_of desk.new)
        (out (K.taken output.old) (K.write_faults output.old))
        (out (K.taken output.new) (K.write_faults output.new)) result }
    ensures kept { Q.files shelf.new ≡ Q.files shelf.old }
{
    let Ok(file) = read_script(alloc, shelf, call) else {
        return Err(Fault::Memory);
    };
    work_call(alloc, desk, output, place, call, bytes_of(&file))
}

// Tells the forms of lines.
fn tell_help<K: Sink>(output: &mut K) -> Result<bool, Fault>
    ensures { (name : List ℕ) (s : State) → Works name (Tells help_text ∷ []) s s
        (out (K.taken output.old) (K.write_faults output.old))
        (out (K.taken output.new) (K.write_faults output.new)) result }
{
    match write_text(output, help()) {
        Ok(()) => Ok(false),
        Err(kind) => Err(kind),
    }
}

// Works what was heard in a line, and lets it go; whether anything of it is refused or wrong.
fn work_heard<K: Sink, Q: Shelf>(
    alloc: Global,
    desk: &mut OwnDesk,
    output: &mut K,
    shelf: &mut Q,
    place: &Place<'_>,
    heard: Heard,
) -> Result<bool, Fault>
    ensures works { WorksHeard (Q.files shelf.old) (Q.shelf_faults shelf.old) (Q.shelf_faults shelf.new)
        place.now.name.now place.now.number heard (state_of desk.old) (state_of desk.new)
        (out (K.taken output.old) (K.write_faults output.old))
        (out (K.taken output.new) (K.write_faults output.new)) result }
    ensures kept { Q.files shelf.new ≡ Q.files shelf.old }
{
    match heard {
        Heard::Nothing => Ok(false),
        Heard::Asks(call) => read_and_work(alloc, desk, output, shelf, place, &call),
        Heard::Help => tell_help(output),
        Heard::Quit => Ok(false),
        Heard::Wrong(fault) => tell_wrong(alloc, output, place, fault),
    }
}

/// What a line leaves.
#[derive(Drop)]
pub(crate) struct Turned {
    /// What stays behind it.
    pub(crate) reader: Reader,
    /// Whether anything of it was refused or wrong.
    pub(crate) wrong: bool,
    /// Whether it ends the session.
    pub(crate) quits: bool,
}

fn is_quit(heard: &Heard) -> bool
    ensures { result ≡ is_quit heard.now }
{
    match heard {
        Heard::Quit => true,
        _ => false,
    }
}

// Works what was heard in a line behind which this stays.
fn turn_to<K: Sink, Q: Shelf>(
    alloc: Global,
    desk: &mut OwnDesk,
    output: &mut K,
    shelf: &mut Q,
    place: &Place<'_>,
    reader: Reader,
    heard: Heard,
) -> Result<Turned, Fault>
    ensures works { WorksTurned (Q.files shelf.old) (Q.shelf_faults shelf.old) (Q.shelf_faults shelf.new)
        place.now.name.now place.now.number reader heard (state_of desk.old) (state_of desk.new)
        (out (K.taken output.old) (K.write_faults output.old))
        (out (K.taken output.new) (K.write_faults output.new)) result }
    ensures kept { Q.files shelf.new ≡ Q.files shelf.old }
{
    let quits = is_quit(&heard);
    match work_heard(alloc, desk, output, shelf, place, heard) {
        Ok(wrong) => Ok(Turned {
            reader,
            wrong,
            quits,
        }),
        Err(kind) => Err(kind),
    }
}

// Hears a line that was shown, and does what it says.
fn hear_and_work<K: Sink, Q: Shelf>(
    alloc: Global,
    desk: &mut OwnDesk,
    output: &mut K,
    shelf: &mut Q,
    place: &Place<'_>,
    reader: Reader,
    line: &[u8],
) -> Result<Turned, Fault>
    ensures works { WorksTurned (Q.files shelf.old) (Q.shelf_faults shelf.old) (Q.shelf_faults shelf.new)
        place.now.name.now place.now.number (reader_after reader line.now) (heard_in reader line.now)
        (state_of desk.old) (state_of desk.new)
        (out (K.taken output.old) (K.write_faults output.old))
        (out (K.taken output.new) (K.write_faults output.new)) result }
    ensures kept { Q.files shelf.new ≡ Q.files shelf.old }
{
    let Ok(taken) = hear(alloc, reader, line) else {
        return Err(Fault::Memory);
    };
    turn_to(alloc, desk, output, shelf, place, taken.0, taken.1)
}

// Shows a line that was read.
fn show<K: Sink>(alloc: Global, output: &mut K, input: Input, line: &[u8]) -> Result<(), Fault>
    ensures { Writes (behind input line.now) (out (K.taken output.old) (K.write_faults output.old))
        (out (K.taken output.new) (K.write_faults output.new)) result }
{
    let Ok(text) = input.behind(alloc, line) else {
        return Err(Fault::Memory);
    };
    write_text(output, text.as_slice())
}

/// Works a line that was read: shows it, hears it, and does what it says.
pub(crate) fn work_line<K: Sink, Q: Shelf>(
    alloc: Global,
    desk: &mut OwnDesk,
    output: &mut K,
    shelf: &mut Q,
    input: Input,
    place: &Place<'_>,
    reader: Reader,
    line: &[u8],
) -> Result<Turned, Fault>
    ensures works { WorksLine (Q.files shelf.old) (Q.shelf_faults shelf.old) (Q.shelf_faults shelf.new)
        place.now.name.now input place.now.number reader line.now (state_of desk.old) (state_of desk.new)
        (out (K.taken output.old) (K.write_faults output.old))
        (out (K.taken output.new) (K.write_faults output.new)) result }
    ensures kept { Q.files shelf.new ≡ Q.files shelf.old }
{
    match show(alloc, output, input, line) {
        Ok(()) => hear_and_work(alloc, desk, output, shelf, place, reader, line),
        Err(kind) => Err(kind),
    }
}
