//! Jobs whose nodes or partitions are at other places now.

ghost use Rattle.std.specs.Prelude.{◌≡◌, map, slice_index};
ghost use Rattle.job_table.specs.Moving.{part_moved, partition_moved, parts_moved};

use crate::record::{JobRecord, Part};
use plain_data::items::Items;
use std::alloc::Global;
use std::mem;

// The new place of what was at a place.
fn moved(places: &[u32], place: u32) -> u32
    ensures { result ≡ slice_index places.now place }
{
    places.get(place as usize).copied().unwrap_or(0)
}

fn move_each(parts: &mut [Part], places: &[u32])
    ensures { parts.new ≡ map (part_moved places.now) parts.old }
{
    for part in parts.iter_mut() {
        part.node = moved(places, part.node);
    }
}

fn move_items(alloc: Global, parts: &mut Items<Part>, places: &[u32])
    ensures { parts.new ≡ map (part_moved places.now) parts.old }
{
    let mut all = mem::replace(parts, Items::from_vec(Vec::new(alloc))).into_vec();
    move_each(all.as_mut_slice(), places);
    *parts = Items::from_vec(all);
}

/// The job's parts are on the same nodes, which are at these places now. Linear in its parts; it takes no memory.
pub(crate) fn move_parts(alloc: Global, job: &mut JobRecord, places: &[u32])
    ensures { job.new ≡ parts_moved places.now job.old }
{
    move_items(alloc, &mut job.parts, places);
}

/// The job is of the same partition, which is at one of these places now.
pub(crate) fn move_partition(job: &mut JobRecord, places: &[u32])
    ensures { job.new ≡ partition_moved places.now job.old }
{
    job.partition = moved(places, job.partition);
}
