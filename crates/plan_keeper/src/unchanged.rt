//! On which nodes nothing has changed by now.

ghost use Rattle.std.specs.Prelude.{◌≡◌, ◌↔◌, ◌≤◌, ◌<◌, ◌&&◌, not, nat_eq, ℕ, Bool, true, false, length, replicate, slice_index_or, IfOk, IfSome, IfNone, All, List};
ghost use Rattle.std.specs.List.{list_any, list_all};
ghost use Rattle.plan_keeper.specs.Marks.{Without};

use backfill_planner::PlanJob;
use plain_data::seconds::FOREVER;
use small_texts::memory_error::Memory;
use std::alloc::Global;

/// On which nodes nothing has changed by now: they were there, and as much of them is free as was when those of the jobs
/// so far that may have them were planned in the old list.
#[derive(Drop)]
pub struct Unchanged {
    /// Of each node, whether it is one of these.
    pub nodes: Vec<bool>,
    // Where this is so all of them are, which spares a look at each.
    all: bool,
    ghost each: { all ≡ true → list_all (λ same. same) nodes.items ≡ true },
}

// Whether all these nodes are marked as the same.
fn are_same(same: &[bool], nodes: &[u32]) -> bool
    requires { All (λ node. node < length same.now) nodes.now }
    ensures { result ≡ list_all (λ node. slice_index_or same.now node false) nodes.now }
{
    nodes.iter().all(|node| same[*node as usize])
}

// Takes these nodes out of those that are the same; some of them may not be there.
fn take_out(same: &mut Vec<bool>, nodes: &[u32])
    ensures long { length same.new.items ≡ length same.old.items }
    ensures each { (node : ℕ) → node < length same.old.items → slice_index_or same.new.items node false
        ≡ (slice_index_or same.old.items node false && not (list_any (nat_eq node) nodes.now)) }
{
    for node in nodes {
        let node = *node as usize;
        if node < same.len() {
            same[node] = false;
        }
    }
}

// Whether all are marked.
fn are_all(same: &[bool]) -> bool
    ensures { result ≡ list_all (λ same. same) same.now }
{
    same.iter().all(|same| *same)
}

// Whether a node with this second is one of them: as much of it is free before the second as was, and it was marked.
fn is_unchanged(second: u64, marked: bool) -> bool
    ensures { (result ≡ true) ↔ ((FOREVER ≤ second) × (marked ≡ true)) }
{
    FOREVER <= second && marked
}

impl Unchanged {
    /// Those that were marked, of which as much is free up to where all windows end. Linear in the nodes.
    pub fn of_seconds(
        alloc: Global,
        seconds: &[u64],
        marked: &Unchanged,
    ) -> Result<Unchanged, Memory>
        requires { length marked.now.nodes.items ≡ length seconds.now }
        ensures long { IfOk result (λ unchanged. length unchanged.nodes.items ≡ length seconds.now) }
        ensures each { IfOk result (λ unchanged. (node : ℕ) (d : Bool) → node < length seconds.now
            → (slice_index_or unchanged.nodes.items node d ≡ true)
            ↔ ((FOREVER ≤ slice_index_or seconds.now node 0)
            × (slice_index_or marked.now.nodes.items node false ≡ true))) }
    {
        let mut nodes = Vec::with_capacity(alloc, seconds.len())?;
        for node in 0..seconds.len() {
            nodes
                .push(is_unchanged(seconds[node], marked.nodes[node]))
                .unwrap();
        }
        Ok(Unchanged::of(nodes))
    }

    /// All of so many nodes.
    pub fn all(alloc: Global, nodes: usize) -> Result<Unchanged, Memory>
        ensures { IfOk result (λ unchanged. unchanged.nodes.items ≡ replicate nodes true) }
    {
        Ok(Unchanged::of(vec![in alloc; true; nodes]?))
    }

    /// A job is passed that stands in one list alone: those of its nodes that are there have changed.
    pub fn pass(&mut self, job: &PlanJob)
        ensures { Without self.old.nodes.items job.now self.new.nodes.items }
    {
        self.all = false;
        take_out(&mut self.nodes, job.nodes.as_slice());
    }

    /// Those that are marked in a list of all nodes. Linear in these.
    pub fn of(nodes: Vec<bool>) -> Unchanged
        ensures { result.nodes.items ≡ nodes.items }
    {
        let all = are_all(nodes.as_slice());
        Unchanged { nodes, all }
    }

    /// Whether these nodes are among them: constant time where all are, else up to the first that isn't.
    pub fn has_all(&self, nodes: &[u32]) -> bool
        requires { All (λ node. node < length self.now.nodes.items) nodes.now }
        ensures { result ≡ list_all (λ node. slice_index_or self.now.nodes.items node false) nodes.now }
    {
        self.all || are_same(self.nodes.as_slice(), nodes)
    }

    /// One job more is planned: as the one at a place of the old list was, or anew, which changes its nodes.
    pub fn go_on(&mut self, job: &PlanJob, before: Option<usize>)
        ensures some { IfSome before (λ _. self.new.nodes.items ≡ self.old.nodes.items) }
        ensures none { IfNone before (Without self.old.nodes.items job.now self.new.nodes.items) }
    {
        if before.is_none() {
            self.pass(job);
        }
    }
}
