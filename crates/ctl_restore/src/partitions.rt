//! The partitions, in the states that are saved of them.

ghost use Rattle.std.specs.Prelude.{◌≡◌, ◌≢◌, ◌<◌, ◌↔◌, IsTrue, All, AllPairs, bytes_eq, map, find, option_map, length};
ghost use Rattle.job_table.specs.Walks.{map_at};
ghost use Rattle.saved_data.specs.declared.parts.SavedPartition.{SavedPartition as OnePartition};
ghost use Rattle.ctl_restore.specs.Restored.{restored_partition};

use job_table::laws::{a_change_is_of_its_place, a_walk_changes_all};
use node_state::partition_record::PartRecord;
use node_state::partitions::Partitions;
use plain_data::conf::PartState;
use saved_data::parts::SavedPartition;

// The state that is saved of a partition, if one is.
fn saved_state(lines: &[SavedPartition], partition: &PartRecord) -> Option<PartState>
    ensures { result ≡ option_map (λ (line : OnePartition). line.state)
        (find (λ (line : OnePartition). bytes_eq line.name partition.now.conf.name) lines.now) }
{
    let line = lines
        .iter()
        .find(|line| line.name.is(&partition.conf.name))?;
    Some(line.state)
}

// Puts the partition at a place into the state that is saved of it, if one is.
fn restore_at(partitions: &mut Partitions, lines: &[SavedPartition], place: u32)
    requires { place < length partitions.old }
    ensures { partitions.new ≡ map_at place (restored_partition lines.now) partitions.old }
{
    a_change_is_of_its_place::<PartRecord>();
    let partition = &partitions.records()[place as usize];
    if let Some(state) = saved_state(lines, partition) {
        partitions.set_state(place, state);
    }
}

/// Puts the partitions into the states that are saved of them. Linear in the lines, for each partition; it takes no
/// memory.
pub fn restore_partitions(partitions: &mut Partitions, lines: &[SavedPartition])
    ensures { partitions.new ≡ map (restored_partition lines.now) partitions.old }
{
    a_walk_changes_all::<PartRecord>();
    for place in 0..partitions.len() {
        restore_at(partitions, lines, place);
    }
}

// Whether none of the lines is of the same partition as the one.
fn is_other(lines: &[SavedPartition], one: &SavedPartition) -> bool
    ensures { IsTrue result ↔ All (λ (line : OnePartition). line.name ≢ one.now.name) lines.now }
{
    lines.iter().all(|line| !line.name.is(&one.name))
}

/// Whether the lines are of partitions that differ. Quadratic in those before the first that comes again.
pub fn are_of_others(lines: &[SavedPartition]) -> bool
    ensures { IsTrue result ↔ AllPairs (λ (one other : OnePartition). one.name ≢ other.name) lines.now }
{
    for (place, line) in lines.iter().enumerate() {
        if !is_other(&lines[..place], line) {
            return false;
        }
    }
    true
}
