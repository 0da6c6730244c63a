//! The form of a line: a word, a dash, and a name in single quotes.

ghost use Rattle.std.specs.Prelude.{◌≡◌, option_map, IfOk};
ghost use Rattle.small_texts.specs.Name.{is_name};
ghost use Rattle.assoc_reader.specs.Lines.{is_skipped, is_ascii, form_in, form_of};

use crate::cuts::cut_at;
use crate::keys::{LineKind, line_kind};
use small_texts::memory_error::Memory;
use small_texts::name::{Name, is_name};
use std::alloc::Global;

/// A line of one of the forms, cut behind its name.
#[derive(Clone, Copy)]
pub(crate) struct LineForm<'a> {
    pub(crate) kind: LineKind,
    pub(crate) name: &'a [u8],
    /// What follows the quote behind the name.
    pub(crate) rest: &'a [u8],
}

/// Whether a line says nothing: it is empty or a comment.
pub(crate) fn is_skipped(text: &[u8]) -> bool
    ensures { result ≡ is_skipped text.now }
{
    matches!(text, [] | [b'#', ..])
}

/// Whether all bytes are ASCII.
pub(crate) fn is_ascii(text: &[u8]) -> bool
    ensures { result ≡ is_ascii text.now }
{
    text.iter().all(|b| *b < 128)
}

/// The form of a line.
#[tactic(auto, unfolding(crate::specs::Lines::form_in))]
pub(crate) fn read_form(text: &[u8]) -> Option<LineForm<'_>>
    ensures { option_map form_of result ≡ form_in text.now }
{
    let (word, quoted) = cut_at(text, b'\'')?;
    let kind = line_kind(word)?;
    let (name, rest) = cut_at(quoted, b'\'')?;
    if is_name(name) {
        Some(LineForm { kind, name, rest })
    } else {
        None
    }
}

/// A name that a text is known to be.
pub(crate) fn copy_name(alloc: Global, text: &[u8]) -> Result<Name, Memory>
    ensures { IfOk result (λ name. name ≡ text.now) }
{
    Name::read(alloc, text).map_err(|_| Memory)
}
