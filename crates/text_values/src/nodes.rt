//! The nodes of a host expression.

ghost use Rattle.std.specs.Prelude.{◌≡◌, ◌<◌, ◌^◌, length, IfOk, IsErrOf, Some, None};
ghost use Rattle.text_values.specs.Nodes.{nodes_in, few_nodes_in};

use crate::node_names::NodeNames;
use crate::refusal::ValueRefusal;
use host_lists::hosts::{HostRefusal, expand_hosts};
use plain_data::items::Items;
use small_texts::name::Name;
use std::alloc::Global;

// How many nodes are named at most where few are wanted.
const MOST_HOSTS: usize = 1024;

// A longer text than this isn't held.
const LONGEST_TEXT: usize = 4_294_967_295;

/// The nodes of a host expression.
#[tactic(auto, unfolding(crate::specs::Nodes::nodes_in))]
pub fn read_nodes(alloc: Global, text: &[u8]) -> Result<Items<Name>, ValueRefusal>
    requires { length text.now < 2 ^ 32 }
    ensures value { IfOk result (λ names. nodes_in text.now ≡ Some names) }
    ensures refused { IsErrOf result ValueRefusal.BadValue → nodes_in text.now ≡ None }
{
    match expand_hosts(alloc, text, usize::MAX) {
        Ok(names) => Ok(Items::from_vec(names)),
        Err(HostRefusal::BadHosts { place: _ }) => Err(ValueRefusal::BadValue),
        Err(HostRefusal::TooMany | HostRefusal::Memory) => Err(ValueRefusal::Memory),
    }
}

/// The nodes of a host expression, 1,024 at most. A text of 4 GiB or more counts as want of memory.
#[tactic(auto, using(crate::proofs::NodeLemmas::too_many), unfolding(crate::specs::Nodes::nodes_in, crate::specs::Nodes::few_nodes_in))]
pub fn read_few_nodes(alloc: Global, text: &[u8]) -> Result<NodeNames, ValueRefusal>
    ensures value { IfOk result (λ names. few_nodes_in text.now ≡ Some names) }
    ensures refused { IsErrOf result ValueRefusal.BadValue → few_nodes_in text.now ≡ None }
{
    if text.len() > LONGEST_TEXT {
        return Err(ValueRefusal::Memory);
    }
    match expand_hosts(alloc, text, MOST_HOSTS) {
        Ok(names) => Ok(NodeNames::from_vec(names)),
        Err(HostRefusal::BadHosts { place: _ }) => Err(ValueRefusal::BadValue),
        Err(HostRefusal::TooMany) => Err(ValueRefusal::BadValue),
        Err(HostRefusal::Memory) => Err(ValueRefusal::Memory),
    }
}
