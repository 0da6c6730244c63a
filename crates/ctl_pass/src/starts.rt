//! The starts of a pass.

ghost use Rattle.std.specs.Prelude.{◌≡◌, IfOk};
ghost use Rattle.ctl_pass.specs.Awaiting.{IsPrepared};
ghost use Rattle.ctl_pass.specs.Awaiting;

use backfill_planner::{Placed, Share};
use job_table::record::Part;
use node_state::record::NodeRecord;
use plain_data::items::Items;
use small_texts::memory_error::Memory;
use small_texts::name::Name;
use std::alloc::Global;

/// A placement that is due, and what its start needs besides processors (own).
#[derive(Drop)]
pub struct DueStart {
    /// What was planned for the job.
    pub placed: Placed,
    /// None yet, with room for one of each share.
    pub parts: Vec<Part>,
    /// The names of the nodes of the shares.
    pub nodes: Items<Name>,
}

// The names of the nodes of these shares.
fn names_at(alloc: Global, nodes: &[NodeRecord], shares: &[Share]) -> Result<Vec<Name>, Memory>
    ensures { IfOk result (λ names. names.items ≡ Awaiting.names_at nodes.now shares.now) }
{
    let mut names = Vec::with_capacity(alloc, shares.len())?;
    for share in shares {
        if let Some(node) = nodes.get(share.node as usize) {
            names.push(node.conf.name.copy()?)?;
        }
    }
    Ok(names)
}

/// Takes the memory for a start. Linear in the placement's shares.
pub(crate) fn prepare(
    alloc: Global,
    nodes: &[NodeRecord],
    placed: Placed,
) -> Result<DueStart, Memory>
    ensures placed { IfOk result (λ start. start.placed ≡ placed) }
    ensures prepared { IfOk result (IsPrepared nodes.now) }
{
    let parts = Vec::with_capacity(alloc, placed.parts.as_slice().len())?;
    let names = names_at(alloc, nodes, placed.parts.as_slice())?;
    Ok(DueStart {
        placed,
        parts,
        nodes: Items::from_vec(names),
    })
}
