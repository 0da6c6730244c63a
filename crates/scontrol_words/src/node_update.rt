//! Updates of nodes.

ghost use Rattle.std.specs.Prelude.{◌≡◌, ◌+◌, Some, IfOk};
ghost use Rattle.operands.specs.Pairs.{now_said};
ghost use Rattle.scontrol_words.specs.Updating.{node_said, node_update_by};

use crate::keys::{Key, scontrol_key};
use crate::values::{is_long, read_node_order};
use line_words::words::Words;
use operands::bad_word::{BadWord, WordKind, fault_at};
use operands::names::read_few_nodes;
use operands::pairs::{Pairs, put, read_pairs};
use plain_data::items::Items;
use request_data::request::{NodeOrder, Request};
use small_texts::memory_error::Memory;
use small_texts::name::Name;
use std::alloc::Global;

/// What the pairs of a nodes' update say.
#[derive(Drop)]
pub(crate) struct NodeUpdate {
    pub(crate) nodes: Option<Items<Name>>,
    pub(crate) state: Option<NodeOrder>,
}

impl NodeUpdate {
    ghost use Rattle.std.specs.Prelude.{◌≡◌, Some, IfOk};
    ghost use Rattle.operands.specs.Pairs.{now_said};
    ghost use Rattle.scontrol_words.specs.Updating.{node_key};
    ghost use Rattle.scontrol_words.specs.declared.keys.Key.TheVariants.{NodeName, Reason};

    // The nodes, which are named once.
    fn name_nodes(&mut self, alloc: Global, value: &[u8]) -> Result<Result<(), WordKind>, Memory>
        ensures { IfOk result (λ added. now_said added self.new ≡ node_key self.old value.now (Some NodeName)) }
    {
        if self.nodes.is_some() {
            return Ok(Err(WordKind::UnknownOption));
        }
        Ok(put(&mut self.nodes, read_few_nodes(alloc, value)?))
    }

    // Why is kept nowhere.
    fn pass_over_reason(&mut self, value: &[u8]) -> Result<(), WordKind>
        ensures { now_said result self.new ≡ node_key self.old value.now (Some Reason) }
    {
        if is_long(value) {
            Err(WordKind::TooLong)
        } else {
            Ok(())
        }
    }
}

impl Pairs for NodeUpdate {
    ghost use Rattle.scontrol_words.specs.Updating.{node_adding};

    ghost adding = { node_adding };

    fn add(
        &mut self,
        alloc: Global,
        key: &[u8],
        value: &[u8],
    ) -> Result<Result<(), WordKind>, Memory> {
        match scontrol_key(key) {
            Some(Key::NodeName) => self.name_nodes(alloc, value),
            Some(Key::State) => Ok(put(&mut self.state, read_node_order(value))),
            Some(Key::Reason) => Ok(self.pass_over_reason(value)),
            _ => Ok(Err(WordKind::UnknownOption)),
        }
    }
}

// The request, where nodes and a state are named; `end` is the place after the last word.
fn node_said(
    end: usize,
    nodes: Option<Items<Name>>,
    state: Option<NodeOrder>,
) -> Result<Request, BadWord>
    ensures { result ≡ node_said (end + 1) nodes state }
{
    match (nodes, state) {
        (Some(nodes), Some(state)) => Ok(Request::UpdateNode { nodes, state }),
        _ => Err(fault_at(end, WordKind::MissingWord)),
    }
}

/// The update of nodes that the words ask for.
#[tactic(auto, unfolding(crate::specs::Updating::node_update_by))]
pub(crate) fn read_node_update(
    alloc: Global,
    words: &Words,
) -> Result<Result<Request, BadWord>, Memory>
    ensures { IfOk result (λ request. request ≡ node_update_by words.now) }
{
    let nothing = NodeUpdate {
        nodes: None,
        state: None,
    };
    match read_pairs(alloc, nothing, words, 2)? {
        Ok(said) => Ok(node_said(words.len(), said.nodes, said.state)),
        Err(fault) => Ok(Err(fault)),
    }
}
