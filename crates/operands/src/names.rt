//! Words that are names, and lists of names and of nodes.

ghost use Rattle.std.specs.Prelude.{◌≡◌, IfOk};
ghost use Rattle.text_values.specs.Names.{name_in, few_names_in};
ghost use Rattle.text_values.specs.Nodes.{few_nodes_in};

use plain_data::items::Items;
use small_texts::memory_error::Memory;
use small_texts::name::Name;
use std::alloc::Global;
use text_values::refusal::or_none;
use text_values::{names, nodes};

/// A word that is a name.
#[tactic(auto, using(crate::proofs::Readings::readings))]
pub fn read_name(alloc: Global, word: &[u8]) -> Result<Option<Name>, Memory>
    ensures { IfOk result (λ name. name ≡ name_in word.now) }
{
    or_none(names::read_name(alloc, word))
}

/// Names between commas, 1,024 at most.
#[tactic(auto, using(crate::proofs::Readings::readings))]
pub fn read_few_names(alloc: Global, word: &[u8]) -> Result<Option<Items<Name>>, Memory>
    ensures { IfOk result (λ names. names ≡ few_names_in word.now) }
{
    or_none(names::read_few_names(alloc, word))
}

/// The nodes of a host expression, 1,024 at most.
#[tactic(auto, using(crate::proofs::Readings::readings))]
pub fn read_few_nodes(alloc: Global, word: &[u8]) -> Result<Option<Items<Name>>, Memory>
    ensures { IfOk result (λ nodes. nodes ≡ few_nodes_in word.now) }
{
    match or_none(nodes::read_few_nodes(alloc, word))? {
        Some(nodes) => Ok(Some(nodes.into_items())),
        None => Ok(None),
    }
}
