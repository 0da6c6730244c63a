//! What memory is asked for.

ghost use Rattle.std.specs.Prelude.{◌≡◌};
ghost use Rattle.plain_data.specs.declared.mem_ask.MemAsk.TheVariants as ask;
ghost use Rattle.text_values.specs.Memory.{mem_of};

use plain_data::mem_ask::MemAsk;
use plain_data::ranged::Ranged;

/// So many megabytes on each node; 0 is all of its memory.
pub fn per_node(megabytes: Ranged<0, 16777216>) -> MemAsk
    ensures { result ≡ mem_of ask.PerNode megabytes }
{
    match megabytes.get() {
        0 => MemAsk::All,
        megabytes => MemAsk::PerNode(Ranged::new(megabytes)),
    }
}

/// So many megabytes for each processor; 0 is all memory of each node (own).
pub fn per_cpu(megabytes: Ranged<0, 16777216>) -> MemAsk
    ensures { result ≡ mem_of ask.PerCpu megabytes }
{
    match megabytes.get() {
        0 => MemAsk::All,
        megabytes => MemAsk::PerCpu(Ranged::new(megabytes)),
    }
}
