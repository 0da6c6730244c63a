//! The ranks of users, by the places of their associations.

ghost use Rattle.std.specs.Prelude.{◌≡◌, ◌≤◌, ◌<◌, ℕ, IfOk, All, count_by, length, map, nat_eq, option_and_then, position, slice_get, slice_index, unwrap_or, vec_len};
ghost use Rattle.run_limits.specs.declared.record.AssocRecord.{AssocRecord};
ghost use Rattle.run_limits.specs.Tree.{users};
ghost use Rattle.ctl_state.specs.State.{state_of};
ghost use Rattle.ctl_waiting.specs.FairShare.{rank_at, tree_of as shares_of, user_count};

use crate::tree::tree_of;
use crate::usage::usage_of;
use ctl_state::cluster::Cluster;
use run_limits::fair_tree::ranks;
use run_limits::record::AssocRecord;
use small_texts::memory_error::Memory;
use std::alloc::Global;

// What stands at a place, 0 behind the end.
fn usage_at_place(usage: &[u64], place: usize) -> u64
    ensures { result ≡ slice_index usage.now place }
{
    usage.get(place).copied().unwrap_or(0)
}

/// The rank at a place, 0 behind the end.
pub(crate) fn rank_at_place(ranks: &[u32], place: usize) -> u32
    ensures { result ≡ slice_index ranks.now place }
{
    ranks.get(place).copied().unwrap_or(0)
}

// What each user has used of each account, in the order of the associations, by what the associations have used.
fn used_by_users(alloc: Global, assocs: &[AssocRecord], usage: &[u64]) -> Result<Vec<u64>, Memory>
    requires { (place : ℕ) → slice_index usage.now place ≤ 4_294_967_295 }
    ensures value { IfOk result (λ used. used.items ≡ map (slice_index usage.now) (users (shares_of assocs.now))) }
    ensures small { IfOk result (λ used. All (λ used. used ≤ 4_294_967_295) used.items) }
{
    let mut used = Vec::new(alloc);
    for (place, assoc) in assocs.iter().enumerate() {
        if assoc.conf.user {
            used.push(usage_at_place(usage, place))?;
        }
    }
    Ok(used)
}

// The ranks of the users, spread over the places of the associations: 0 of an account.
fn spread(alloc: Global, assocs: &[AssocRecord], ranks: &[u32]) -> Result<Vec<u32>, Memory>
    ensures len { IfOk result (λ spread. vec_len spread ≡ length assocs.now) }
    ensures each { IfOk result (λ spread. (place : ℕ) → place < length assocs.now → slice_index spread.items place
        ≡ unwrap_or
        (option_and_then (slice_get ranks.now) (position (nat_eq place) (users (shares_of assocs.now))))
        0) }
{
    let mut spread = Vec::with_capacity(alloc, assocs.len())?;
    let mut next = 0;
    for assoc in assocs {
        if assoc.conf.user {
            spread.push(rank_at_place(ranks, next))?;
            next += 1;
        } else {
            spread.push(0)?;
        }
    }
    Ok(spread)
}

// How many of the associations are of users.
fn users_among(assocs: &[AssocRecord]) -> usize
    ensures { result ≡ count_by (λ (assoc : AssocRecord). assoc.conf.user) assocs.now }
{
    assocs.iter().filter(|assoc| assoc.conf.user).count()
}

/// How many associations are of users. Linear in them.
pub(crate) fn count_users(cluster: &Cluster) -> u64
    ensures { result ≡ user_count (state_of cluster.now) }
{
    users_among(cluster.assocs.records()) as u64
}

/// The rank of the user of each association, in the order of these; 0 of an account. Linear in associations, the jobs
/// that hold something and their parts, with one look for each 64 others; and it ranks the users by Fair Tree, in the
/// time of a sort.
pub(crate) fn ranks_at(alloc: Global, cluster: &Cluster, now: u64) -> Result<Vec<u32>, Memory>
    ensures len { IfOk result (λ ranks. vec_len ranks ≡ length cluster.now.assocs.records) }
    ensures each { IfOk result (λ ranks. (place : ℕ) → place < length cluster.now.assocs.records
        → slice_index ranks.items place ≡ rank_at (state_of cluster.now) now place) }
{
    let assocs = cluster.assocs.records();
    let usage = usage_of(alloc, cluster, now)?;
    let tree = tree_of(alloc, assocs)?;
    let used = used_by_users(alloc, assocs, usage.as_slice())?;
    let by_user = ranks(alloc, tree.as_slice(), used.as_slice())?;
    spread(alloc, assocs, by_user.as_slice())
}
