//! What is told on the output.

ghost use Rattle.std.specs.Prelude.{◌≡◌, [], ◌∷◌, IfOk};
ghost use Rattle.ctl_state.specs.State.{State};
ghost use Rattle.session_text.specs.Actions.{Faults};
ghost use Rattle.session_text.specs.CallTexts.{fault_line};
ghost use Rattle.session_talk.specs.Telling.{answer_text};
ghost use Rattle.session_talk.specs.Working.{Works, Writes, out};

use crate::answer::Told;
use crate::fault::Fault;
use session_text::{LineFault, Place, fault_line, place_text};
use slurm_io::{Failed, Sink, write_all};
use small_texts::memory_error::Memory;
use small_texts::pieces::push_text;
use std::alloc::Global;

/// Tells a text.
pub(crate) fn write_text<K: Sink>(output: &mut K, text: &[u8]) -> Result<(), Fault>
    ensures { Writes text.now (out (K.taken output.old) (K.write_faults output.old))
        (out (K.taken output.new) (K.write_faults output.new)) result }
{
    match write_all(output, text) {
        Ok(()) => Ok(()),
        Err(Failed) => Err(Fault::Write),
    }
}

/// Tells what is wrong with a line.
pub(crate) fn write_fault<K: Sink>(
    alloc: Global,
    output: &mut K,
    place: &Place<'_>,
    fault: LineFault,
) -> Result<(), Fault>
    ensures { Writes (fault_line place.now.name.now place.now.number fault)
        (out (K.taken output.old) (K.write_faults output.old))
        (out (K.taken output.new) (K.write_faults output.new)) result }
{
    let Ok(line) = fault_line(alloc, place, fault) else {
        return Err(Fault::Memory);
    };
    write_text(output, line.as_slice())
}

/// The same, as the work on a line of which that is all.
pub(crate) fn tell_wrong<K: Sink>(
    alloc: Global,
    output: &mut K,
    place: &Place<'_>,
    fault: LineFault,
) -> Result<bool, Fault>
    ensures { (s : State) → Works place.now.name.now (Faults place.now.number fault ∷ []) s s
        (out (K.taken output.old) (K.write_faults output.old))
        (out (K.taken output.new) (K.write_faults output.new)) result }
{
    match write_fault(alloc, output, place, fault) {
        Ok(()) => Ok(true),
        Err(kind) => Err(kind),
    }
}

// What is told of an answer.
fn answer_text(alloc: Global, place: &Place<'_>, told: Told) -> Result<Vec<u8>, Memory>
    ensures { IfOk result (λ text.
        text.items ≡ answer_text place.now.name.now place.now.number told.is_refused told.text.items) }
{
    if !told.is_refused {
        return Ok(told.text);
    }
    let mut text = place_text(alloc, place)?;
    push_text(&mut text, told.text.as_slice())?;
    Ok(text)
}

// Tells an answer.
fn write_answer<K: Sink>(
    alloc: Global,
    output: &mut K,
    place: &Place<'_>,
    told: Told,
) -> Result<(), Fault>
    ensures { Writes (answer_text place.now.name.now place.now.number told.is_refused told.text.items)
        (out (K.taken output.old) (K.write_faults output.old))
        (out (K.taken output.new) (K.write_faults output.new)) result }
{
    let Ok(text) = answer_text(alloc, place, told) else {
        return Err(Fault::Memory);
    };
    write_text(output, text.as_slice())
}

/// The same, as the work on a block; whether it is refused.
pub(crate) fn tell_answer<K: Sink>(
    alloc: Global,
    output: &mut K,
    place: &Place<'_>,
    told: Told,
) -> Result<bool, Fault>
    ensures refused { IfOk result (λ refused. refused ≡ told.is_refused) }
    ensures told { Writes (answer_text place.now.name.now place.now.number told.is_refused told.text.items)
        (out (K.taken output.old) (K.write_faults output.old))
        (out (K.taken output.new) (K.write_faults output.new)) result }
{
    let is_refused = told.is_refused;
    match write_answer(alloc, output, place, told) {
        Ok(()) => Ok(is_refused),
        Err(kind) => Err(kind),
    }
}
