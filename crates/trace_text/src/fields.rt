//! The fields of a line.

ghost use Rattle.std.specs.Prelude.{◌≡◌, ◌==◌, ◌<◌, ◌≤◌, map, position, IfOk};
ghost use Rattle.small_texts.specs.Fields.{fields};
ghost use Rattle.trace_text.specs.Fields.{field, is_gap, is_word, words};
ghost use Rattle.trace_text.specs.Steps.{at_field};

use crate::fault::LineFault;
use small_texts::memory_error::Memory;
use std::alloc::Global;

/// The fields of a line with a mark between two.
pub(crate) fn fields_of(alloc: Global, line: &[u8], mark: u8) -> Result<Vec<&[u8]>, Memory>
    ensures { IfOk result (λ parts. map (λ part. part.now) parts.items ≡ fields mark line.now) }
{
    Ok(line.split(|byte| *byte == mark).collect(alloc)?)
}

fn is_gap(byte: u8) -> bool
    ensures { result ≡ is_gap byte }
{
    matches!(byte, b' ' | b'\t' | b'\r')
}

fn is_word(part: &[u8]) -> bool
    ensures { result ≡ is_word part.now }
{
    !part.is_empty()
}

/// The words of a line, with gaps between them.
pub(crate) fn words_of(alloc: Global, line: &[u8]) -> Result<Vec<&[u8]>, Memory>
    ensures { IfOk result (λ parts. map (λ part. part.now) parts.items ≡ words line.now) }
{
    Ok(
        line.split(|byte| is_gap(*byte))
            .filter(|part| is_word(part))
            .collect(alloc)?,
    )
}

/// What the field at a place says, or the fault that it says nothing.
pub(crate) fn at_field<T: Drop>(place: usize, said: Option<T>) -> Result<T, LineFault>
    ensures { result ≡ at_field place said }
{
    said.ok_or(LineFault::Field { place })
}

/// The field at a place, counted from 1; an empty one where there are fewer.
pub(crate) fn field<'a>(fields: &[&'a [u8]], place: usize) -> &'a [u8]
    requires { 1 ≤ place }
    ensures { result.now ≡ field (map (λ part. part.now) fields.now) place }
{
    match fields.get(place - 1) {
        Some(part) => part,
        None => b"",
    }
}
