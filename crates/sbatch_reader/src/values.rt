//! Values of options.

ghost use Rattle.std.specs.Prelude.{◌≡◌, IfOk, IsErrOf, Some, None};
ghost use Rattle.small_texts.specs.Memory.{megabytes_of};
ghost use Rattle.text_values.specs.Numbers.{number_in};
ghost use Rattle.sbatch_reader.specs.Values.{job_name_in, node_range_in, mem_per_node, mem_per_cpu};

use plain_data::mem_ask::MemAsk;
use plain_data::ranged::Ranged;
use small_texts::fields::{UpToThree, up_to_three};
use small_texts::memory::parse_mem;
use small_texts::name::JobName;
use std::alloc::Global;
use text_values::memory::{per_cpu, per_node};
use text_values::numbers::read_number;
use text_values::refusal::ValueRefusal;

/// How many nodes a job wants.
#[derive(Clone, Copy)]
pub struct NodeRange {
    pub least: Ranged<1, 1024>,
    /// It may be below the least.
    pub most: Ranged<1, 1024>,
}

/// A name of a job.
pub(crate) fn read_job_name(alloc: Global, text: &[u8]) -> Result<JobName, ValueRefusal>
    ensures value { IfOk result (λ name. job_name_in text.now ≡ Some name) }
    ensures refused { IsErrOf result ValueRefusal.BadValue → job_name_in text.now ≡ None }
{
    let name = JobName::read(alloc, text)?;
    Ok(name)
}

fn read_node_number(text: &[u8]) -> Option<Ranged<1, 1024>>
    ensures { result ≡ number_in 1 1024 text.now }
{
    read_number(text)
}

/// `--nodes`: one number, or the least and the most.
#[tactic(auto, unfolding(crate::specs::Values::node_range_of))]
pub(crate) fn read_node_range(text: &[u8]) -> Option<NodeRange>
    ensures { result ≡ node_range_in text.now }
{
    match up_to_three(text, b'-') {
        UpToThree::One(number) => {
            let number = read_node_number(number)?;
            Some(NodeRange {
                least: number,
                most: number,
            })
        }
        UpToThree::Two(least, most) => Some(NodeRange {
            least: read_node_number(least)?,
            most: read_node_number(most)?,
        }),
        _ => None,
    }
}

// Megabytes, maybe with a unit.
fn read_megabytes(text: &[u8]) -> Option<Ranged<0, 16777216>>
    ensures { result ≡ megabytes_of text.now }
{
    match parse_mem(text) {
        Ok(megabytes) => Some(Ranged::new(megabytes)),
        Err(_) => None,
    }
}

/// `--mem`: megabytes on each node; 0 is all of its memory.
#[tactic(auto, unfolding(crate::specs::Values::mem_per_node))]
pub(crate) fn read_mem_per_node(text: &[u8]) -> Option<MemAsk>
    ensures { result ≡ mem_per_node text.now }
{
    Some(per_node(read_megabytes(text)?))
}

/// `--mem-per-cpu`: megabytes for each processor; 0 is all memory of each node (own).
#[tactic(auto, unfolding(crate::specs::Values::mem_per_cpu))]
pub(crate) fn read_mem_per_cpu(text: &[u8]) -> Option<MemAsk>
    ensures { result ≡ mem_per_cpu text.now }
{
    Some(per_cpu(read_megabytes(text)?))
}
