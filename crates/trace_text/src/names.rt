//! Names in traces.

ghost use Rattle.std.specs.Prelude.{◌≡◌, ◌++◌, IfOk, decimal};
ghost use Rattle.trace_text.specs.Names.{name_in, numbered};

use small_texts::memory_error::Memory;
use small_texts::name::{Name, NameRefusal};
use small_texts::pieces::push_labelled;
use std::alloc::Global;

/// The name that a text is, where it is one.
pub(crate) fn name_in(alloc: Global, text: &[u8]) -> Result<Option<Name>, Memory>
    ensures { IfOk result (λ name. name ≡ name_in text.now) }
{
    match Name::read(alloc, text) {
        Ok(name) => Ok(Some(name)),
        Err(NameRefusal::BadName) => Ok(None),
        Err(NameRefusal::Memory) => Err(Memory),
    }
}

/// The name of something that has a number: a word and the number behind it.
pub(crate) fn numbered(
    alloc: Global,
    word: &[u8],
    number: Option<u64>,
) -> Result<Option<Name>, Memory>
    ensures { IfOk result (λ name. name ≡ numbered word.now number) }
{
    let Some(number) = number else {
        return Ok(None);
    };
    let mut text = Vec::new(alloc);
    push_labelled(&mut text, word, number)?;
    name_in(alloc, text.as_slice())
}
