//! Which jobs hold something of a node.

ghost use Rattle.std.specs.Prelude.{◌≡◌, ◌<◌, ◌≤◌, ◌^◌, IfSome, false, length, unwrap_or};
ghost use Rattle.std.specs.List.{AllWithin};
ghost use Rattle.job_table.specs.Blocks.{AreMarked};
ghost use Rattle.job_table.specs.Blocks as spec;

use crate::blocks::{BLOCK, Block, next_marked};
use crate::record::JobRecord;

// Whether the job holds something of the node.
fn holds_on(node: u32, job: &JobRecord) -> bool
    ensures { result ≡ spec.holds_on node job.now }
{
    job.parts.as_slice().iter().any(|part| part.node == node)
}

// The first place from one on and before another at which the job holds something of the node.
fn first_on(jobs: &[JobRecord], node: u32, from: usize, end: usize) -> Option<usize>
    requires { end ≤ length jobs.now }
    ensures there { IfSome result (λ place. (from ≤ place) × (place < end)) }
    ensures before { AllWithin (λ job. spec.holds_on node job ≡ false) jobs.now from (unwrap_or result end) }
{
    for place in from..end {
        if holds_on(node, &jobs[place]) {
            return Some(place);
        }
    }
    None
}

/// The first place from one on at which the job holds something of the node. It looks at the jobs of the blocks that have
/// the node's mark, one after the other.
pub(crate) fn next_on(blocks: &[Block], jobs: &[JobRecord], node: u32, from: usize) -> Option<usize>
    requires marked { AreMarked blocks.now jobs.now }
    requires few { length jobs.now < 2 ^ 63 }
    ensures there { IfSome result (λ place. (from ≤ place) × (place < length jobs.now)) }
    ensures before { AllWithin (λ job. spec.holds_on node job ≡ false) jobs.now from
        (unwrap_or result (length jobs.now)) }
{
    let mut place = from;
    while let Some(marked) = next_marked(blocks, jobs.len(), node, place) {
        let end = jobs.len().min((marked / BLOCK + 1) * BLOCK);
        if let Some(found) = first_on(jobs, node, marked, end) {
            return Some(found);
        }
        place = end;
    }
    None
}
