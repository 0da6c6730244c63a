//! The jobs that hold something of a node.

ghost use Rattle.std.specs.Prelude.{◌≡◌, ◌++◌, ◌∷◌, [], IfOk, OnOk, filter};
ghost use Rattle.job_table.specs.Table.{HaveRisingIds};
ghost use Rattle.ctl_node_side.specs.Ordering.{shown};
ghost use Rattle.ctl_node_side.specs.Reporting.{is_at};

use crate::jobs::is_at;
use job_table::jobs::Jobs;
use job_table::record::JobRecord;
use small_texts::memory_error::Memory;
use std::alloc::Global;

/// The jobs that hold something of the node at a place, in the order of their numbers. Linear in these and in those
/// that the table has beside them; one look for each 64 others.
pub(crate) fn jobs_at<'a>(
    alloc: Global,
    jobs: &'a Jobs,
    node: u32,
) -> Result<Vec<&'a JobRecord>, Memory>
    ensures found { IfOk result (λ found. shown found.items ≡ filter (is_at node) jobs.now.records) }
    ensures rising { IfOk result (λ found. HaveRisingIds (shown found.items)) }
{
    let records = jobs.records();
    let mut found = Vec::new(alloc);
    let mut from = 0;
    while let Some(place) = jobs.next_on(node, from) {
        add(&mut found, node, &records[place])?;
        from = place + 1;
    }
    Ok(found)
}

// Adds the job, if it holds something of the node.
fn add<'a>(found: &mut Vec<&'a JobRecord>, node: u32, job: &'a JobRecord) -> Result<(), Memory>
    ensures { OnOk result (shown found.new.items ≡ shown found.old.items ++ filter (is_at node) (job.now ∷ [])) }
{
    if is_at(node, job) {
        found.push(job)?;
    }
    Ok(())
}
