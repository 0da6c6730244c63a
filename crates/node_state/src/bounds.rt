//! How many nodes a job may have.

ghost use Rattle.std.specs.Prelude.{◌≡◌};
ghost use Rattle.node_state.specs.Partitions;

use crate::partition_record::PartRecord;
use plain_data::ranged::Ranged;

/// How many nodes a job of so many tasks may have in the partition that asks for these at least and at most: None where
/// no number will do. `--nodes` in sbatch(1), `MinNodes` and `MaxNodes` in slurm.conf(5).
#[tactic(auto, unfolding(crate::specs::Partitions::bounds_of))]
pub fn bounds_of(
    partition: &PartRecord,
    tasks: Ranged<1, 1048576>,
    min_nodes: Ranged<1, 1024>,
    max_nodes: Option<Ranged<1, 1024>>,
) -> Option<(u32, u32)>
    ensures { result ≡ Partitions.bounds_of partition.now tasks min_nodes max_nodes }
{
    let tasks = tasks.get() as u32;
    let least = (min_nodes.get() as u32).max(partition.conf.min_nodes);
    let asked = max_nodes.map_or(tasks, |most| most.get() as u32);
    let allowed = partition.conf.max_nodes.unwrap_or(tasks);
    let most = tasks.min(asked.min(allowed));
    if least <= most {
        Some((least, most))
    } else {
        None
    }
}
