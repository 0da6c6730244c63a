//! The tree of associations as a list.

ghost use Rattle.std.specs.Prelude.{◌≡◌, ◌<◌, ◌^◌, length, IfOk};
ghost use Rattle.run_limits.specs.Tree.{users as users_of};

use std::alloc::{AllocError, Global};

/// An association of the tree, in the order of the association file.
#[derive(Clone, Copy, PartialEq, Eq, Debug)]
pub struct TreeNode {
    /// The place of its account in the list; None belongs to root.
    pub parent: Option<u32>,
    /// `Fairshare` of sacctmgr(1).
    pub shares: u32,
    /// It is a user's and not an account's.
    pub user: bool,
}

// The places of the users.
pub(crate) fn users(alloc: Global, nodes: &[TreeNode]) -> Result<Vec<u32>, AllocError>
    requires { length nodes.now < 2 ^ 32 }
    ensures { IfOk result (λ users. users.items ≡ users_of nodes.now) }
{
    let mut users = Vec::new(alloc);
    for (place, node) in nodes.iter().enumerate() {
        if node.user {
            users.push(place as u32)?;
        }
    }
    Ok(users)
}
