//! Of each node, a second before which something is known of it.

ghost use Rattle.std.specs.Prelude.{◌≡◌, ◌↔◌, ℕ, ◌≤◌, ◌<◌, min, true, nat_le, if◌then◌else◌, length, set, slice_index_or, Some, All};
ghost use Rattle.std.specs.List.{list_all};
ghost use Rattle.backfill_planner.specs.declared.Share.{Share as AShare};
ghost use Rattle.plan_keeper.specs.Kept.{has_part, Lowers};

use backfill_planner::{Placed, Share};
use plain_data::seconds::FOREVER;

/// Of each node, a second.
#[derive(Drop)]
pub struct NodeSeconds {
    /// By the node.
    pub seconds: Vec<u64>,
    // None of them is earlier than this one, which spares a look at each.
    least: u64,
    ghost each: { All (λ second. least ≤ second) seconds.items },
}

// The least of the seconds, or the last one.
fn least_of(seconds: &[u64]) -> u64
    ensures { All (λ second. result ≤ second) seconds.now }
{
    let mut least = FOREVER;
    for second in seconds {
        least = least.min(*second);
    }
    least
}

// Whether of each of these nodes it is this second or a later one.
fn are_reached(seconds: &[u64], nodes: &[u32], second: u64) -> bool
    requires { All (λ node. node < length seconds.now) nodes.now }
    ensures { result ≡ list_all (λ node. nat_le second (slice_index_or seconds.now node 0)) nodes.now }
{
    nodes.iter().all(|node| second <= seconds[*node as usize])
}

// Of each node with a part it is this second or an earlier one then.
fn lower(seconds: &mut Vec<u64>, parts: &[Share], second: u64)
    requires { All (λ (share : AShare). share.node < length seconds.old.items) parts.now }
    ensures long { length seconds.new.items ≡ length seconds.old.items }
    ensures each { (node : ℕ) → node < length seconds.old.items → slice_index_or seconds.new.items node 0
        ≡ (if has_part node parts.now then min second (slice_index_or seconds.old.items node 0)
        else slice_index_or seconds.old.items node 0) }
{
    for part in parts {
        let node = part.node as usize;
        seconds[node] = second.min(seconds[node]);
    }
}

impl NodeSeconds {
    /// Those of a list of all nodes. Linear in these.
    pub fn of(seconds: Vec<u64>) -> NodeSeconds
        ensures { result.seconds.items ≡ seconds.items }
    {
        let least = least_of(seconds.as_slice());
        NodeSeconds { seconds, least }
    }

    /// Whether of each of these nodes it is this second or a later one: constant time where it is so of all nodes, else
    /// up to the first of which it isn't.
    pub fn reach(&self, nodes: &[u32], second: u64) -> bool
        requires { All (λ node. node < length self.now.seconds.items) nodes.now }
        ensures { (result ≡ true) ↔ All (λ node. second ≤ slice_index_or self.now.seconds.items node 0) nodes.now }
    {
        second <= self.least || are_reached(self.seconds.as_slice(), nodes, second)
    }

    /// Of each node on which it has a part it is the placement's start or an earlier second then. Linear in the parts.
    pub fn lower(&mut self, placed: &Placed)
        requires { All (λ (share : AShare). share.node < length self.old.seconds.items) placed.now.parts }
        ensures { Lowers self.old.seconds.items (Some placed.now) self.new.seconds.items }
    {
        self.least = placed.start.min(self.least);
        lower(&mut self.seconds, placed.parts.as_slice(), placed.start);
    }

    /// Of this node it is this one then.
    pub fn set(&mut self, node: usize, second: u64)
        requires { node < length self.old.seconds.items }
        ensures { self.new.seconds.items ≡ set self.old.seconds.items node second }
    {
        self.least = second.min(self.least);
        self.seconds[node] = second;
    }

    /// It looks for the least of them, which may have risen. Linear in the nodes.
    pub fn look_again(&mut self)
        ensures { self.new.seconds.items ≡ self.old.seconds.items }
    {
        self.least = least_of(self.seconds.as_slice());
    }
}
