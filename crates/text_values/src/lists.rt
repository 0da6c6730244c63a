//! Texts whose parts stand between separators.

ghost use Rattle.std.specs.Prelude.{◌≡◌, ℕ, List, Option, Some, None, IfOk, IsErrOf};
ghost use Rattle.text_values.specs.Lists.{few_in, parts_in};

use crate::refusal::ValueRefusal;
use plain_data::items::Items;
use small_texts::fields::first_field;
use std::alloc::Global;

// A longer list isn't taken where few members are wanted.
const MOST_MEMBERS: usize = 1024;

/// What a text can mean, as the parts of a list do.
pub trait Grammar {
    ghost use Rattle.std.specs.Prelude.{◌≡◌, ℕ, List, Option, Some, None, IfOk, IsErrOf};

    type Value: Drop;

    ghost meaning: { List ℕ → Option Self.Value };

    /// What the text means.
    fn read(alloc: Global, text: &[u8]) -> Result<Self::Value, ValueRefusal>
        ensures value { IfOk result (λ value. meaning text.now ≡ Some value) }
        ensures refused { IsErrOf result ValueRefusal.BadValue → meaning text.now ≡ None };
}

/// What all parts of a text mean.
#[tactic(auto, using(crate::proofs::PartLemmas::part_steps))]
pub fn read_parts<G: Grammar>(
    alloc: Global,
    text: &[u8],
    separator: u8,
) -> Result<Items<G::Value>, ValueRefusal>
    ensures value { IfOk result (λ parts. parts_in G.meaning separator text.now ≡ Some parts) }
    ensures refused { IsErrOf result ValueRefusal.BadValue → parts_in G.meaning separator text.now ≡ None }
{
    let mut parts = Vec::new(alloc);
    let mut rest = Some(text);
    while let Some(list) = rest {
        let (first, others) = first_field(list, separator);
        let part = G::read(alloc, first)?;
        parts.push(part)?;
        rest = others;
    }
    Ok(Items::from_vec(parts))
}

/// What the parts of a text between commas mean, where these are at most 1,024.
pub fn read_few<G: Grammar>(alloc: Global, text: &[u8]) -> Result<Items<G::Value>, ValueRefusal>
    ensures value { IfOk result (λ parts. few_in G.meaning text.now ≡ Some parts) }
    ensures refused { IsErrOf result ValueRefusal.BadValue → few_in G.meaning text.now ≡ None }
{
    let parts = read_parts::<G>(alloc, text, b',')?;
    if parts.as_slice().len() > MOST_MEMBERS {
        return Err(ValueRefusal::BadValue);
    }
    Ok(parts)
}
