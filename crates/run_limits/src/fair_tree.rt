//! The ranks of users by Fair Tree, the algorithm of Slurm's multifactor priority: users are ordered by what their
//! accounts used of their shares, from root's children down.

ghost use Rattle.std.specs.Prelude.{◌≡◌, ◌≤◌, length, count_by, All, IfOk};
ghost use Rattle.run_limits.specs.declared.tree.TreeNode.{TreeNode};
ghost use Rattle.run_limits.specs.Tree.{IsTree};
ghost use Rattle.run_limits.specs.Ranks.{ranks_of};

use crate::tree::TreeNode;
use crate::{order, paths, sums, tree};
use small_texts::memory_error::Memory;
use std::alloc::Global;

/// The rank of each user association, in the order of the list: the number of users, at most 4,096, less the number of
/// those that come before. `usage` is what each user has used, in the same order. It takes the time of a sort of the
/// users by their paths, and of a walk up to root from each. How ties are treated is the project's own.
pub fn ranks(alloc: Global, tree: &[TreeNode], usage: &[u64]) -> Result<Vec<u32>, Memory>
    requires tree { IsTree tree.now }
    requires users { length usage.now ≡ count_by (λ (node : TreeNode). node.user) tree.now }
    requires few { length usage.now ≤ 4096 }
    requires usage { All (λ used. used ≤ 4_294_967_295) usage.now }
    ensures { IfOk result (λ ranks. ranks.items ≡ ranks_of tree.now usage.now) }
{
    let users = tree::users(alloc, tree)?;
    let used = sums::usage_sums(alloc, tree, &users, usage)?;
    let shares = sums::share_sums(alloc, tree)?;
    let mut paths = paths::user_paths(alloc, tree, &used, &shares, &users)?;
    order::sort(&mut paths);
    order::ranks(alloc, &paths)
}
