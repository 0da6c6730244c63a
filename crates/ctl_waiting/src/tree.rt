//! The tree of shares.

ghost use Rattle.std.specs.Prelude.{◌≡◌, ◌≤◌, ◌<◌, ◌^◌, IfOk, length};
ghost use Rattle.run_limits.specs.Accounts.{AreFew, AreRooted};
ghost use Rattle.run_limits.specs.Tree.{IsTree};
ghost use Rattle.ctl_waiting.specs.FairShare as spec;

use run_limits::record::AssocRecord;
use run_limits::tree::TreeNode;
use small_texts::memory_error::Memory;
use std::alloc::Global;

fn node_of(assoc: &AssocRecord) -> TreeNode
    ensures value { result ≡ spec.node_of assoc.now }
    ensures shares { result.shares ≤ 65_535 }
{
    TreeNode {
        parent: assoc.conf.parent,
        shares: assoc.conf.shares.get() as u32,
        user: assoc.conf.user,
    }
}

// The tree of shares, in the order of the associations.
#[tactic(auto, unfolding(crate::specs::FairShare::tree_of))]
pub(crate) fn tree_of(alloc: Global, assocs: &[AssocRecord]) -> Result<Vec<TreeNode>, Memory>
    requires rooted { AreRooted assocs.now }
    requires few { AreFew assocs.now }
    requires small { length assocs.now < 2 ^ 32 }
    ensures value { IfOk result (λ tree. tree.items ≡ spec.tree_of assocs.now) }
    ensures tree { IfOk result (λ tree. IsTree tree.items) }
{
    let mut nodes = Vec::with_capacity(alloc, assocs.len())?;
    for assoc in assocs {
        nodes.push(node_of(assoc))?;
    }
    Ok(nodes)
}
