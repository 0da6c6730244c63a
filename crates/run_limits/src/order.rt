//! The order of the users, and their ranks.

ghost use Rattle.std.specs.Prelude.{◌≡◌, ◌<◌, ◌-◌, ◌^◌, ◌&&◌, nat_lt, map, length, vec_len, All, IfOk, IsPermutation, slice_index, slice_index_or};
ghost use Rattle.std.specs.List.Sorted.{IsSortedBy};
ghost use Rattle.run_limits.specs.declared.paths.Span.{Span};
ghost use Rattle.run_limits.specs.Levels.{level_cmp};
ghost use Rattle.run_limits.specs.Ranks.{parting, is_greater, rank_among};
ghost use Rattle.run_limits.specs.Paths.{seen, path_in, walk_cmp, comes_first, AreApart};

use crate::level::LevelFs;
use crate::paths::{Paths, Span, levels_of};
use plain_data::compare;
use small_texts::memory_error::Memory;
use std::alloc::Global;
use std::cmp::Ordering;

// How two levels compare.
fn compare_levels(one: LevelFs, other: LevelFs) -> Ordering
    ensures { result ≡ level_cmp (seen one) (seen other) }
{
    match (one, other) {
        (LevelFs::Least, LevelFs::Least) | (LevelFs::Top, LevelFs::Top) => Ordering::Equal,
        (LevelFs::Least, _) | (_, LevelFs::Top) => Ordering::Less,
        (_, LevelFs::Least) | (LevelFs::Top, _) => Ordering::Greater,
        (LevelFs::Fraction(one), LevelFs::Fraction(other)) => compare(&one.ratio, &other.ratio),
    }
}

// How two paths compare at the first place where they differ.
fn part(one: &[LevelFs], other: &[LevelFs]) -> Ordering
    ensures { result ≡ parting (map seen one.now) (map seen other.now) }
{
    let [x, one @ ..] = one else {
        return Ordering::Equal;
    };
    let [y, other @ ..] = other else {
        return Ordering::Equal;
    };
    match compare_levels(*x, *y) {
        Ordering::Equal => part(one, other),
        order => order,
    }
}

// The order of two paths in a walk down the tree.
fn compare_paths(one: &[LevelFs], other: &[LevelFs]) -> Ordering
    ensures { result ≡ walk_cmp one.now other.now }
{
    let [x, one @ ..] = one else {
        return 0.cmp(&other.len());
    };
    let [y, other @ ..] = other else {
        return Ordering::Greater;
    };
    match compare_levels(*y, *x) {
        Ordering::Equal => compare_paths(one, other),
        order => order,
    }
}

// Sorts the users as a walk down the tree meets them: of siblings the greater level first, and of those that tie the
// children together.
pub(crate) fn sort(paths: &mut Paths)
    ensures levels { paths.new.levels.items ≡ paths.old.levels.items }
    ensures users { IsPermutation paths.old.spans.items paths.new.spans.items }
    ensures sorted { IsSortedBy (comes_first paths.old.levels.items) paths.new.spans.items }
{
    let levels = paths.levels.as_slice();
    paths.spans.sort_unstable_by(|one, other| compare_paths(
        levels_of(levels, one),
        levels_of(levels, other),
    ));
}

// A user's path is less than that of the one before him.
fn falls(levels: &[LevelFs], spans: &[Span], index: usize) -> bool
    requires { index < length spans.now }
    ensures { (d : Span) → result ≡ (nat_lt 0 index && is_greater
        (path_in levels.now (slice_index_or spans.now (index - 1) d))
        (path_in levels.now (slice_index_or spans.now index d))) }
{
    index > 0
        && part(
            levels_of(levels, &spans[index - 1]),
            levels_of(levels, &spans[index]),
        )
        .is_gt()
}

// The ranks of users in that order. A path that doesn't go on from the one before it is where all before it precede.
pub(crate) fn ranks(alloc: Global, paths: &Paths) -> Result<Vec<u32>, Memory>
    requires small { vec_len paths.now.spans < 2 ^ 32 }
    requires users { All (λ (span : Span). span.user < vec_len paths.now.spans) paths.now.spans.items }
    requires apart { AreApart paths.now.spans.items }
    requires sorted { IsSortedBy (comes_first paths.now.levels.items) paths.now.spans.items }
    ensures len { IfOk result (λ ranks. vec_len ranks ≡ vec_len paths.now.spans) }
    ensures ranks { IfOk result (λ ranks. All (λ (span : Span). slice_index ranks.items span.user
        ≡ rank_among (map (path_in paths.now.levels.items) paths.now.spans.items) (path_in paths.now.levels.items span))
        paths.now.spans.items) }
{
    let levels = paths.levels.as_slice();
    let spans = paths.spans.as_slice();
    let mut ranks = vec![in alloc; 0; spans.len()]?;
    let mut ahead = 0;
    for (index, span) in spans.iter().enumerate() {
        if falls(levels, spans, index) {
            ahead = index;
        }
        ranks[span.user as usize] = (spans.len() - ahead) as u32;
    }
    Ok(ranks)
}
