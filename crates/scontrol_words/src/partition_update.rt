//! Updates of partitions.

ghost use Rattle.std.specs.Prelude.{◌≡◌, ◌+◌, Some, IfOk};
ghost use Rattle.operands.specs.Pairs.{now_said};
ghost use Rattle.scontrol_words.specs.Updating.{partition_said, partition_update_by};

use crate::keys::{Key, scontrol_key};
use line_words::words::Words;
use operands::bad_word::{BadWord, WordKind, fault_at};
use operands::names::read_name;
use operands::pairs::{Pairs, put, read_pairs};
use plain_data::conf::PartState;
use request_data::request::Request;
use small_texts::memory_error::Memory;
use small_texts::name::Name;
use std::alloc::Global;
use text_values::states::read_part_state;

/// What the pairs of a partition's update say.
#[derive(Drop)]
pub(crate) struct PartitionUpdate {
    pub(crate) name: Option<Name>,
    pub(crate) state: Option<PartState>,
}

impl PartitionUpdate {
    ghost use Rattle.std.specs.Prelude.{◌≡◌, Some, IfOk};
    ghost use Rattle.operands.specs.Pairs.{now_said};
    ghost use Rattle.scontrol_words.specs.Updating.{partition_key};
    ghost use Rattle.scontrol_words.specs.declared.keys.Key.TheVariants.{PartitionName};

    // The partition, which is named once.
    fn name_partition(
        &mut self,
        alloc: Global,
        value: &[u8],
    ) -> Result<Result<(), WordKind>, Memory>
        ensures { IfOk result (λ added. now_said added self.new ≡ partition_key self.old value.now (Some PartitionName)) }
    {
        if self.name.is_some() {
            return Ok(Err(WordKind::UnknownOption));
        }
        Ok(put(&mut self.name, read_name(alloc, value)?))
    }
}

impl Pairs for PartitionUpdate {
    ghost use Rattle.scontrol_words.specs.Updating.{partition_adding};

    ghost adding = { partition_adding };

    fn add(
        &mut self,
        alloc: Global,
        key: &[u8],
        value: &[u8],
    ) -> Result<Result<(), WordKind>, Memory> {
        match scontrol_key(key) {
            Some(Key::PartitionName) => self.name_partition(alloc, value),
            Some(Key::State) => Ok(put(&mut self.state, read_part_state(value))),
            _ => Ok(Err(WordKind::UnknownOption)),
        }
    }
}

// The request, where a partition and a state are named; `end` is the place after the last word.
fn partition_said(
    end: usize,
    name: Option<Name>,
    state: Option<PartState>,
) -> Result<Request, BadWord>
    ensures { result ≡ partition_said (end + 1) name state }
{
    match (name, state) {
        (Some(name), Some(state)) => Ok(Request::UpdatePartition { name, state }),
        _ => Err(fault_at(end, WordKind::MissingWord)),
    }
}

/// The update of a partition that the words ask for.
#[tactic(auto, unfolding(crate::specs::Updating::partition_update_by))]
pub(crate) fn read_partition_update(
    alloc: Global,
    words: &Words,
) -> Result<Result<Request, BadWord>, Memory>
    ensures { IfOk result (λ request. request ≡ partition_update_by words.now) }
{
    let nothing = PartitionUpdate {
        name: None,
        state: None,
    };
    match read_pairs(alloc, nothing, words, 2)? {
        Ok(said) => Ok(partition_said(words.len(), said.name, said.state)),
        Err(fault) => Ok(Err(fault)),
    }
}
