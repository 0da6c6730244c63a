//! The levels from root down to each user.

ghost use Rattle.std.specs.Prelude.{◌≡◌, ◌<◌, ◌≤◌, ◌++◌, length, vec_len, map, All, IfSome, IfOk, OnOk, Some};
ghost use Rattle.run_limits.specs.declared.paths.Span.{Span};
ghost use Rattle.std.specs.List.{range_with_len};
ghost use Rattle.run_limits.specs.Tree.{level_of, path_of};
ghost use Rattle.run_limits.specs.Paths.{AreSums, sum_at, seen, levels_in, path_in};

use crate::level::{Fraction, LevelFs};
use crate::sums::Sums;
use crate::tree::TreeNode;
use plain_data::Ratio;
use small_texts::memory_error::Memory;
use std::alloc::Global;

// A user, counted from 0, and where the levels of his path lie.
#[derive(Clone, Copy, Debug)]
pub(crate) struct Span {
    pub(crate) user: u32,
    pub(crate) start: usize,
    pub(crate) end: usize,
}

// The levels of all paths, one path behind another, and where each lies.
#[derive(Drop)]
pub(crate) struct Paths {
    pub(crate) levels: Vec<LevelFs>,
    pub(crate) spans: Vec<Span>,
}

// The levels of a user's path.
pub(crate) fn levels_of<'a>(levels: &'a [LevelFs], span: &Span) -> &'a [LevelFs]
    ensures { result.now ≡ levels_in levels.now span.now }
{
    if span.start <= span.end && span.end <= levels.len() {
        &levels[span.start..span.end]
    } else {
        &[]
    }
}

// The level of an association.
fn level(nodes: &[TreeNode], used: &Sums, shares: &Sums, place: u32) -> LevelFs
    requires place { place < length nodes.now }
    requires sums { AreSums nodes.now used.now shares.now }
    ensures { seen result ≡ level_of (sum_at used.now) (sum_at shares.now) nodes.now place }
{
    let node = &nodes[place as usize];
    let usage = used.at(Some(place));
    if node.shares == 0 {
        LevelFs::Least
    } else if usage == 0 {
        LevelFs::Top
    } else {
        LevelFs::Fraction(Fraction {
            ratio: Ratio {
                num: u128::from(node.shares) * u128::from(used.at(node.parent)),
                den: u128::from(shares.at(node.parent)) * u128::from(usage),
            },
        })
    }
}

// Puts the levels from root's child down to the association at a place behind others. It calls itself as deep as the
// tree is.
fn push_path(
    levels: &mut Vec<LevelFs>,
    nodes: &[TreeNode],
    used: &Sums,
    shares: &Sums,
    at: Option<u32>,
) -> Result<(), Memory>
    requires place { IfSome at (λ place. place < length nodes.now) }
    requires sums { AreSums nodes.now used.now shares.now }
    ensures { OnOk result (map seen levels.new.items
        ≡ map seen levels.old.items ++ path_of (sum_at used.now) (sum_at shares.now) nodes.now at) }
{
    if let Some(place) = at {
        push_path(levels, nodes, used, shares, nodes[place as usize].parent)?;
        levels.push(level(nodes, used, shares, place))?;
    }
    Ok(())
}

// The paths of the users at these places.
pub(crate) fn user_paths(
    alloc: Global,
    nodes: &[TreeNode],
    used: &Sums,
    shares: &Sums,
    users: &[u32],
) -> Result<Paths, Memory>
    requires users { All (λ place. place < length nodes.now) users.now }
    requires few { length users.now ≤ 4096 }
    requires sums { AreSums nodes.now used.now shares.now }
    ensures users { IfOk result (λ paths. map (λ (span : Span). span.user) paths.spans.items
        ≡ range_with_len 0 (length users.now)) }
    ensures len { IfOk result (λ paths. vec_len paths.spans ≡ length users.now) }
    ensures paths { IfOk result (λ paths. map (path_in paths.levels.items) paths.spans.items
        ≡ map (λ place. path_of (sum_at used.now) (sum_at shares.now) nodes.now (Some place)) users.now) }
{
    let mut levels = Vec::new(alloc);
    let mut spans = Vec::with_capacity(alloc, users.len())?;
    for (user, place) in users.iter().enumerate() {
        let start = levels.len();
        push_path(&mut levels, nodes, used, shares, Some(*place))?;
        spans.push(Span {
            user: user as u32,
            start,
            end: levels.len(),
        })?;
    }
    Ok(Paths { levels, spans })
}
