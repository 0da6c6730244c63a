//! Values of keys.

ghost use Rattle.std.specs.Prelude.{◌≡◌, IfOk, IsErrOf, Some, None};
ghost use Rattle.text_values.specs.Numbers.{number_in};
ghost use Rattle.text_values.specs.Values.{node_start, yes_or_no, exclusive_in, allowed_in, most_nodes, mem_per_node, mem_per_cpu};

use crate::memory::{per_cpu, per_node};
use crate::names::read_names;
use crate::numbers::{read_number, read_u32};
use crate::refusal::ValueRefusal;
use plain_data::conf::NodeStart;
use plain_data::items::Items;
use plain_data::mem_ask::MemAsk;
use plain_data::ranged::Ranged;
use small_texts::keywords::is_keyword;
use small_texts::name::Name;
use std::alloc::Global;

/// How a node begins, in any case of letters.
#[tactic(auto, unfolding(crate::specs::Values::node_start))]
pub fn read_node_start(text: &[u8]) -> Option<NodeStart>
    ensures { result ≡ node_start text.now }
{
    if is_keyword(text, b"UNKNOWN") {
        Some(NodeStart::Unknown)
    } else if is_keyword(text, b"DOWN") {
        Some(NodeStart::Down)
    } else if is_keyword(text, b"DRAIN") {
        Some(NodeStart::Drain)
    } else {
        None
    }
}

/// YES or NO, in any case of letters.
#[tactic(auto, unfolding(crate::specs::Values::yes_or_no))]
pub fn read_yes_or_no(text: &[u8]) -> Option<bool>
    ensures { result ≡ yes_or_no text.now }
{
    if is_keyword(text, b"YES") {
        Some(true)
    } else if is_keyword(text, b"NO") {
        Some(false)
    } else {
        None
    }
}

/// Whether jobs have their nodes for themselves; only NO counts in any case of letters.
#[tactic(auto, unfolding(crate::specs::Values::exclusive_in))]
pub fn read_exclusive(text: &[u8]) -> Option<bool>
    ensures { result ≡ exclusive_in text.now }
{
    if text == b"EXCLUSIVE".as_slice() {
        Some(true)
    } else if is_keyword(text, b"NO") {
        Some(false)
    } else {
        None
    }
}

/// Names between commas, or None for all.
#[tactic(auto, unfolding(crate::specs::Values::allowed_in))]
pub fn read_allowed(alloc: Global, text: &[u8]) -> Result<Option<Items<Name>>, ValueRefusal>
    ensures value { IfOk result (λ names. allowed_in text.now ≡ Some names) }
    ensures refused { IsErrOf result ValueRefusal.BadValue → allowed_in text.now ≡ None }
{
    if is_keyword(text, b"ALL") {
        return Ok(None);
    }
    let names = read_names(alloc, text)?;
    Ok(Some(names))
}

/// How many nodes a job may have; None has no end.
#[tactic(auto, unfolding(crate::specs::Values::most_nodes))]
pub fn read_most_nodes(text: &[u8]) -> Option<Option<u32>>
    ensures { result ≡ most_nodes text.now }
{
    if is_keyword(text, b"UNLIMITED") {
        return Some(None);
    }
    let number = read_u32(text)?;
    Some(Some(number))
}

fn read_megabytes(text: &[u8]) -> Option<Ranged<0, 16777216>>
    ensures { result ≡ number_in 0 16777216 text.now }
{
    read_number(text)
}

/// Megabytes on each node; 0 is all of its memory.
#[tactic(auto, unfolding(crate::specs::Values::mem_per_node))]
pub fn read_mem_per_node(text: &[u8]) -> Option<MemAsk>
    ensures { result ≡ mem_per_node text.now }
{
    Some(per_node(read_megabytes(text)?))
}

/// Megabytes for each processor; 0 is all memory of each node.
#[tactic(auto, unfolding(crate::specs::Values::mem_per_cpu))]
pub fn read_mem_per_cpu(text: &[u8]) -> Option<MemAsk>
    ensures { result ≡ mem_per_cpu text.now }
{
    Some(per_cpu(read_megabytes(text)?))
}
