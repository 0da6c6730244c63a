//! The texts that tell of lines.

ghost use Rattle.std.specs.Prelude.{◌≡◌, IfOk};
ghost use Rattle.session_text.specs.CallTexts.{fault_line, help_text, place_text};

use crate::LineFault;
use small_texts::memory_error::Memory;
use small_texts::pieces::{push_number, push_text};
use std::alloc::Global;

/// A line of a session (own).
#[derive(Clone, Copy)]
pub struct Place<'a> {
    /// The name of the file, as it is told.
    pub name: &'a [u8],
    /// The number of the line, counted from 1.
    pub number: u64,
}

/// What stands in front of what is told of a line that is refused or wrong (own).
pub fn place_text(alloc: Global, place: &Place<'_>) -> Result<Vec<u8>, Memory>
    ensures { IfOk result (λ text. text.items ≡ place_text place.now.name.now place.now.number) }
{
    let mut text = Vec::new(alloc);
    push_text(&mut text, place.name)?;
    push_text(&mut text, b":")?;
    push_number(&mut text, place.number)?;
    push_text(&mut text, b": ")?;
    Ok(text)
}

/// The line that tells what is wrong with a line (own).
pub fn fault_line(alloc: Global, place: &Place<'_>, fault: LineFault) -> Result<Vec<u8>, Memory>
    ensures { IfOk result (λ text. text.items ≡ fault_line place.now.name.now place.now.number fault) }
{
    let mut text = place_text(alloc, place)?;
    push_text(&mut text, b"error: ")?;
    push_text(&mut text, fault.name())?;
    push_text(&mut text, b"\n")?;
    Ok(text)
}

/// What `help` is answered (own).
#[tactic(auto, unfolding(crate::specs::CallTexts::help_text))]
pub fn help() -> &'static [u8]
    ensures { result.now ≡ help_text }
{
    b"[MOMENT] COMMAND ..   asks as sbatch, squeue, scancel, scontrol, sinfo, sprio, report or pass do\n\
every SECONDS COMMAND .. until MOMENT   asks again and again\n\
at MOMENT   user NAME   stay until the next; quit ends it; # begins a comment\n\
MOMENT: seconds since 1970, +SECONDS, or what --begin of sbatch takes\n\
sbatch FILE takes its script from there; sbatch <<WORD from the lines up to one that is WORD\n"
}
