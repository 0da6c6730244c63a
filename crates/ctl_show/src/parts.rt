//! What jobs hold, of nodes by their names.

ghost use Rattle.std.specs.Prelude.{◌≡◌, IfOk};
ghost use Rattle.ctl_show.specs.Showing;

use job_table::record::Part;
use node_state::record::NodeRecord;
use plain_data::items::Items;
use reply_data::view::NamedPart;
use small_texts::memory_error::Memory;
use std::alloc::Global;

// What the part holds of the node.
fn part_by(part: &Part, node: &NodeRecord) -> Result<NamedPart, Memory>
    ensures { IfOk result (λ named. named ≡ Showing.part_by part.now node.now) }
{
    Ok(NamedPart {
        node: node.conf.name.copy()?,
        cpus: part.cpus.copy(),
        mem: part.mem,
    })
}

fn list_parts(alloc: Global, nodes: &[NodeRecord], parts: &[Part]) -> Result<Vec<NamedPart>, Memory>
    ensures { IfOk result (λ named. named.items ≡ Showing.named_parts nodes.now parts.now) }
{
    let mut named = Vec::with_capacity(alloc, parts.len())?;
    for part in parts {
        if let Some(node) = nodes.get(part.node as usize) {
            named.push(part_by(part, node)?)?;
        }
    }
    Ok(named)
}

/// The parts, each of its node by its name. Linear in the parts.
pub(crate) fn named_parts(
    alloc: Global,
    nodes: &[NodeRecord],
    parts: &[Part],
) -> Result<Items<NamedPart>, Memory>
    ensures { IfOk result (λ named. named ≡ Showing.named_parts nodes.now parts.now) }
{
    let named = list_parts(alloc, nodes, parts)?;
    Ok(Items::from_vec(named))
}
