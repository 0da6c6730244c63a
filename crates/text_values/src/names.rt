//! Names, and lists of them.

ghost use Rattle.std.specs.Prelude.{◌≡◌, IfOk, IsErrOf, Some, None};
ghost use Rattle.text_values.specs.Names.{name_in, names_in, few_names_in};

use crate::lists::{Grammar, read_few, read_parts};
use crate::refusal::ValueRefusal;
use plain_data::items::Items;
use small_texts::name::Name;
use std::alloc::Global;

/// The grammar of names.
#[derive(Clone, Copy)]
pub struct NameText;

impl Grammar for NameText {
    type Value = Name;

    ghost meaning = { name_in };

    fn read(alloc: Global, text: &[u8]) -> Result<Name, ValueRefusal> {
        read_name(alloc, text)
    }
}

/// A name as nodes, users and accounts have one.
pub fn read_name(alloc: Global, text: &[u8]) -> Result<Name, ValueRefusal>
    ensures value { IfOk result (λ name. name_in text.now ≡ Some name) }
    ensures refused { IsErrOf result ValueRefusal.BadValue → name_in text.now ≡ None }
{
    let name = Name::read(alloc, text)?;
    Ok(name)
}

/// Names between commas.
#[tactic(auto, unfolding(crate::specs::Names::names_in))]
pub fn read_names(alloc: Global, text: &[u8]) -> Result<Items<Name>, ValueRefusal>
    ensures value { IfOk result (λ names. names_in text.now ≡ Some names) }
    ensures refused { IsErrOf result ValueRefusal.BadValue → names_in text.now ≡ None }
{
    read_parts::<NameText>(alloc, text, b',')
}

/// Names between commas, 1,024 at most.
#[tactic(auto, unfolding(crate::specs::Names::few_names_in))]
pub fn read_few_names(alloc: Global, text: &[u8]) -> Result<Items<Name>, ValueRefusal>
    ensures value { IfOk result (λ names. few_names_in text.now ≡ Some names) }
    ensures refused { IsErrOf result ValueRefusal.BadValue → few_names_in text.now ≡ None }
{
    read_few::<NameText>(alloc, text)
}
