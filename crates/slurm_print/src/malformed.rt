//! The texts that answer blocks which ask nothing.

ghost use Rattle.std.specs.Prelude.{◌≡◌, ◌++◌, IfOk, OnOk};
ghost use Rattle.text_values.specs.WordRefusal.{kind_text};
ghost use Rattle.slurm_print.specs.Malformed.{teller, fault_line, conf_fault_line, malformed_text, bad_words_text, bad_header_text, unknown_command_text};

use command_words::command::Command;
use command_words::fault::{WordFault, WordKind};
use small_texts::memory_error::Memory;
use small_texts::pieces::{push_labelled, push_text};
use std::alloc::Global;
use text_values::conf_refusal::ConfKind;

/// The text that answers malformed words, or a malformed script or configuration (own).
pub fn malformed(alloc: Global, command: Command, fault: WordFault) -> Result<Vec<u8>, Memory>
    ensures { IfOk result (λ text. text.items ≡ malformed_text command fault) }
{
    let mut out = Vec::new(alloc);
    push_malformed(alloc, &mut out, command, fault)?;
    Ok(out)
}

fn push_malformed(
    alloc: Global,
    out: &mut Vec<u8>,
    command: Command,
    fault: WordFault,
) -> Result<(), Memory>
    ensures { OnOk result (out.new.items ≡ out.old.items ++ malformed_text command fault) }
{
    match fault {
        WordFault::Word { word, kind } => push_fault(alloc, out, command, b" word ", word, kind),
        WordFault::Line { line, kind } => push_fault(alloc, out, command, b" line ", line, kind),
        WordFault::Conf { line, kind } => push_conf_fault(out, command, line, kind),
    }
}

fn push_conf_fault(
    out: &mut Vec<u8>,
    command: Command,
    line: u32,
    kind: ConfKind,
) -> Result<(), Memory>
    ensures { OnOk result (out.new.items ≡ out.old.items ++ conf_fault_line command line kind) }
{
    push_text(out, command.name())?;
    push_labelled(out, b": error: conf line ", u64::from(line))?;
    push_text(out, b": ")?;
    push_text(out, kind.name().as_bytes())?;
    push_text(out, b"\n")?;
    Ok(())
}

/// The text that answers a header which is no list of words: it is wrong at this byte, counted from 0 (own).
pub fn bad_words(alloc: Global, place: u32) -> Result<Vec<u8>, Memory>
    ensures { IfOk result (λ text. text.items ≡ bad_words_text place) }
{
    let mut out = Vec::new(alloc);
    push_labelled(&mut out, b"slurm: error: byte ", u64::from(place))?;
    push_text(&mut out, b": BadWords\n")?;
    Ok(out)
}

/// The text that answers a header without a moment, a user or a command (own).
pub fn bad_header() -> &'static [u8]
    ensures { result.now ≡ bad_header_text }
{
    b"slurm: error: BadHeader\n"
}

/// The text that answers a command that there isn't (own).
pub fn unknown_command() -> &'static [u8]
    ensures { result.now ≡ unknown_command_text }
{
    b"slurm: error: word 1: UnknownCommand\n"
}

fn teller(command: Command, kind: WordKind) -> &'static [u8]
    ensures { result.now ≡ teller command kind }
{
    match kind {
        WordKind::UnknownCommand => b"slurm",
        _ => command.name(),
    }
}

fn push_kind(alloc: Global, out: &mut Vec<u8>, kind: WordKind) -> Result<(), Memory>
    ensures { OnOk result (out.new.items ≡ out.old.items ++ kind_text kind) }
{
    let text = kind.to_string(alloc)?;
    push_text(out, text.as_bytes())
}

fn push_fault(
    alloc: Global,
    out: &mut Vec<u8>,
    command: Command,
    place: &[u8],
    number: u32,
    kind: WordKind,
) -> Result<(), Memory>
    ensures { OnOk result (out.new.items ≡ out.old.items ++ fault_line command place.now number kind) }
{
    push_text(out, teller(command, kind))?;
    push_text(out, b": error:")?;
    push_labelled(out, place, u64::from(number))?;
    push_text(out, b": ")?;
    push_kind(alloc, out, kind)?;
    push_text(out, b"\n")?;
    Ok(())
}
