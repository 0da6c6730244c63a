//! The old plan's jobs by their ids, and how many stand above each that may have its nodes.

ghost use Rattle.std.specs.Prelude.{◌≡◌, ◌<◌, ◌+◌, ◌≤◌, ◌^◌, ℕ, nat_eq, length, take, drop, sum_by, count_by, slice_index_or, IfOk, OnOk, IfSome, All, List};
ghost use Rattle.std.specs.HashMap.{get};
ghost use Rattle.backfill_planner.specs.declared.job.PlanJob.{PlanJob as AJob};
ghost use Rattle.plan_keeper.specs.Marks.{FindsId, IsListed, depth, times};

use backfill_planner::{PlanJob, Planned};
use small_texts::memory_error::Memory;
use std::alloc::Global;
use std::collections::HashMap;

/// The jobs of an old plan that stand behind some first ones.
#[derive(Drop)]
pub struct OldList {
    /// How many the first ones are.
    pub first: usize,
    /// The place of a job behind them, by its id.
    pub places: HashMap<u32, usize>,
    /// Of each, how often its nodes are among those of the jobs from there to it.
    pub depths: Vec<u64>,
}

/// The place of each job by its id; of several of one id the last.
pub fn places_of(alloc: Global, ranked: &[PlanJob]) -> Result<HashMap<u32, usize>, Memory>
    ensures { IfOk result (λ places. (id : ℕ) → FindsId ranked.now (length ranked.now) id (get nat_eq places id)) }
{
    let mut places = HashMap::with_capacity(alloc, ranked.len())?;
    for (place, job) in ranked.iter().enumerate() {
        places.insert(job.id, place)?;
    }
    Ok(places)
}

/// Adds a job's nodes to the counts.
pub fn add_nodes(counts: &mut Vec<u64>, nodes: &[u32]) -> Result<(), Memory>
    requires { All (λ node. node < length counts.old.items) nodes.now }
    ensures long { length counts.new.items ≡ length counts.old.items }
    ensures each { OnOk result ((node d : ℕ) → node < length counts.old.items
        → slice_index_or counts.new.items node d
        ≡ slice_index_or counts.old.items node d + count_by (nat_eq node) nodes.now) }
{
    for node in nodes {
        let Some(more) = counts[*node as usize].checked_add(1) else {
            return Err(Memory);
        };
        counts[*node as usize] = more;
    }
    Ok(())
}

/// The sum of the nodes' counts.
pub fn sum_of(counts: &[u64], nodes: &[u32]) -> Result<u64, Memory>
    requires { All (λ node. node < length counts.now) nodes.now }
    ensures { IfOk result (λ sum. sum ≡ sum_by (λ node. slice_index_or counts.now node 0) nodes.now) }
{
    let mut sum: u64 = 0;
    for node in nodes {
        let Some(more) = sum.checked_add(counts[*node as usize]) else {
            return Err(Memory);
        };
        sum = more;
    }
    Ok(sum)
}

// Of each job, how often its nodes, of which there are so many, are among those of the jobs above it.
fn depths_of(alloc: Global, ranked: &[PlanJob], nodes: usize) -> Result<Vec<u64>, Memory>
    requires { All (λ (job : AJob). All (λ node. node < nodes) job.nodes) ranked.now }
    ensures long { IfOk result (λ depths. length depths.items ≡ length ranked.now) }
    ensures deep { IfOk result (λ depths. (place d : ℕ) (job : AJob) → place < length ranked.now
        → slice_index_or ranked.now place job ≡ job → slice_index_or depths.items place d ≡ depth ranked.now place job) }
{
    let mut counts: Vec<u64> = vec![in alloc; 0; nodes]?;
    let mut depths = Vec::with_capacity(alloc, ranked.len())?;
    for job in ranked {
        let nodes = job.nodes.as_slice();
        depths.push(sum_of(counts.as_slice(), nodes)?)?;
        add_nodes(&mut counts, nodes)?;
    }
    Ok(depths)
}

impl OldList {
    /// Of the jobs of a plan behind the first ones. Linear in the nodes of all of them.
    pub fn of(alloc: Global, old: &Planned, first: usize) -> Result<OldList, Memory>
        requires { first ≤ length old.now.ranked }
        ensures first { IfOk result (λ list. list.first ≡ first) }
        ensures listed { IfOk result (λ list. IsListed (drop first old.now.ranked)
            (get nat_eq list.places) list.depths.items) }
    {
        let ranked = old.ranked().split_at(first).1;
        let nodes = old.base().rooms.as_slice().len();
        Ok(OldList {
            first,
            places: places_of(alloc, ranked)?,
            depths: depths_of(alloc, ranked, nodes)?,
        })
    }
}
