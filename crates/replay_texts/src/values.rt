//! Single values of a line.

ghost use Rattle.std.specs.Prelude.{◌≡◌, ◌++◌, OnOk, flat_map};
ghost use Rattle.replay_texts.specs.Values.{id_text, known, later_name, name_text, names_text, wait_known};

use small_texts::memory_error::Memory;
use small_texts::name::Name;
use small_texts::pieces::{push_labelled, push_number, push_text};
use trace_text::TraceId;

/// Writes which job it is, as sacct(1) does.
pub(crate) fn push_id(out: &mut Vec<u8>, id: TraceId) -> Result<(), Memory>
    ensures { OnOk result (out.new.items ≡ out.old.items ++ id_text id) }
{
    match id {
        TraceId::Job(job) => push_number(out, job),
        TraceId::Task { array, task } => {
            push_number(out, array)?;
            push_labelled(out, b"_", task)
        }
        TraceId::WaitingTasks { array } => {
            push_number(out, array)?;
            push_text(out, b"_[]")
        }
        TraceId::Component { job, place } => {
            push_number(out, job)?;
            push_labelled(out, b"+", place)
        }
    }
}

/// Writes a comma, and the number where it is known.
pub(crate) fn push_known(out: &mut Vec<u8>, number: Option<u64>) -> Result<(), Memory>
    ensures { OnOk result (out.new.items ≡ out.old.items ++ known number) }
{
    match number {
        Some(number) => push_labelled(out, b",", number),
        None => push_text(out, b","),
    }
}

/// Writes a comma, and the name where there is one.
pub(crate) fn push_name(out: &mut Vec<u8>, name: &Option<Name>) -> Result<(), Memory>
    ensures { OnOk result (out.new.items ≡ out.old.items ++ name_text name.now) }
{
    push_text(out, b",")?;
    match name {
        Some(name) => push_text(out, name.as_bytes()),
        None => Ok(()),
    }
}

fn push_later_names(out: &mut Vec<u8>, names: &[Name]) -> Result<(), Memory>
    ensures { OnOk result (out.new.items ≡ out.old.items ++ flat_map later_name names.now) }
{
    for name in names {
        push_text(out, b" ")?;
        push_text(out, name.as_bytes())?;
    }
    Ok(())
}

/// Writes a comma, and the names with blanks between them.
pub(crate) fn push_names(out: &mut Vec<u8>, names: &[Name]) -> Result<(), Memory>
    ensures { OnOk result (out.new.items ≡ out.old.items ++ names_text names.now) }
{
    push_text(out, b",")?;
    match names {
        [] => Ok(()),
        [name, others @ ..] => {
            push_text(out, name.as_bytes())?;
            push_later_names(out, others)
        }
    }
}

/// For how long a job waited, where it is known when it was handed in and started.
pub(crate) fn wait_known(submit: Option<u64>, start: Option<u64>) -> Option<u64>
    ensures { result ≡ wait_known submit start }
{
    match (start, submit) {
        (Some(start), Some(submit)) => Some(start.saturating_sub(submit)),
        (Some(_), None) => None,
        (None, Some(_)) => None,
        (None, None) => None,
    }
}
