// Trees as texts.
ghost use Rattle.std.specs.Prelude.{◌<◌, ◌≤◌, All, IfOk, IfSome};
ghost use Rattle.run_limits.specs.declared.tree.TreeNode.{TreeNode};
ghost use Rattle.run_limits.specs.Tree.{IsTree};

use run_limits::tree::TreeNode;
use std::alloc::Global;
use table_lines::answer::{Unanswered, push};
use table_lines::fields::{narrow_number, parts};

// No tree of a table has more associations.
const MOST: usize = 256;

// `PARENT/SHARES/account` or `PARENT/SHARES/user`, the parent being the number of an association before it, from
// 0, or `-` for root.
fn node(alloc: Global, text: &[u8], place: usize) -> Result<TreeNode, Unanswered>
    ensures parent { IfOk result (λ node. IfSome node.parent (λ parent. parent < place)) }
    ensures shares { IfOk result (λ node. node.shares ≤ 65_535) }
{
    let words = parts(alloc, text, b'/')?;
    let [parent, shares, kind] = *words.as_slice() else {
        return Err(Unanswered::Arguments);
    };
    let shares = narrow_number(shares)?;
    if shares > 65_535 {
        return Err(Unanswered::Arguments);
    }
    let user = kind == b"user".as_slice();
    if parent == b"-".as_slice() {
        return Ok(TreeNode {
            parent: None,
            shares,
            user,
        });
    }
    let parent = narrow_number(parent)?;
    if parent as usize >= place {
        return Err(Unanswered::Arguments);
    }
    Ok(TreeNode {
        parent: Some(parent),
        shares,
        user,
    })
}

// A tree as the list of its associations.
fn nodes(alloc: Global, text: &[u8]) -> Result<Vec<TreeNode>, Unanswered>
    ensures { IfOk result (λ nodes. IsTree nodes.items) }
{
    let mut nodes = Vec::new(alloc);
    for text in &parts(alloc, text, b',')? {
        if nodes.len() >= MOST {
            return Err(Unanswered::Arguments);
        }
        let node = node(alloc, text, nodes.len())?;
        nodes.push(node)?;
    }
    Ok(nodes)
}

// What each user has used.
fn usage(alloc: Global, text: &[u8]) -> Result<Vec<u64>, Unanswered>
    ensures { IfOk result (λ usage. All (λ used. used ≤ 4_294_967_295) usage.items) }
{
    let mut usage = Vec::new(alloc);
    for text in &parts(alloc, text, b',')? {
        usage.push(u64::from(narrow_number(text)?))?;
    }
    Ok(usage)
}

fn rank_all(alloc: Global, tree: &[u8], used: &[u8]) -> Result<Vec<u8>, Unanswered> {
    let nodes = nodes(alloc, tree)?;
    let usage = usage(alloc, used)?;
    let users = nodes.iter().filter(|node| node.user).count();
    if usage.len() != users || users > MOST {
        return Err(Unanswered::Arguments);
    }
    let mut out = Vec::new(alloc);
    for rank in &run_limits::fair_tree::ranks(alloc, &nodes, &usage)? {
        if !out.is_empty() {
            out.push(b',')?;
        }
        push(&mut out, rank)?;
    }
    Ok(out)
}

/// The ranks of the users of a tree, by the tree and what they have used.
pub fn ranks(alloc: Global, arguments: &[&[u8]]) -> Result<Vec<u8>, Unanswered> {
    match *arguments {
        [tree, used] => rank_all(alloc, tree, used),
        _ => Err(Unanswered::Arguments),
    }
}
