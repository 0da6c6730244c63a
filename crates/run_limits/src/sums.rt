//! Sums of usage and of shares over the tree.

ghost use Rattle.std.specs.Prelude.{◌≡◌, ◌<◌, ◌≤◌, ◌+◌, ◌^◌, ℕ, zero, length, vec_len, take, All, IfOk, IfSome, Option, if◌then◌else◌};
ghost use Rattle.run_limits.specs.Tree.{IsTree, charges, usage_of, children_shares, is_same_place, is_within, users};
ghost use Rattle.run_limits.specs.Paths.{sum_at};

use crate::tree::TreeNode;
use std::alloc::{AllocError, Global};

// A number for root and one for each place.
#[derive(Drop)]
pub(crate) struct Sums {
    pub(crate) root: u64,
    pub(crate) places: Vec<u64>,
}

impl Sums {
    // Zeros for a tree of so many associations.
    fn new(alloc: Global, count: usize) -> Result<Self, AllocError>
        ensures zero { IfOk result (λ sums. (at : Option ℕ) → sum_at sums at ≡ 0) }
        ensures len { IfOk result (λ sums. vec_len sums.places ≡ count) }
    {
        Ok(Sums {
            root: 0,
            places: vec![in alloc; 0; count]?,
        })
    }

    // The number of root or a place.
    pub(crate) fn at(&self, at: Option<u32>) -> u64
        requires { IfSome at (λ place. place < vec_len self.now.places) }
        ensures { result ≡ sum_at self.now at }
    {
        match at {
            None => self.root,
            Some(place) => self.places[place as usize],
        }
    }

    // Adds to the number of root or a place.
    fn add(&mut self, at: Option<u32>, by: u64)
        requires place { IfSome at (λ place. place < vec_len self.old.places) }
        requires room { sum_at self.old at + by < 2 ^ 64 }
        ensures sums { (one : Option ℕ) →
            sum_at self.new one ≡ sum_at self.old one + (if is_same_place one at then by else 0) }
        ensures len { vec_len self.new.places ≡ vec_len self.old.places }
    {
        match at {
            None => self.root += by,
            Some(place) => self.places[place as usize] += by,
        }
    }
}

// Adds to root and to all places on the way up from a place.
fn charge(nodes: &[TreeNode], sums: &mut Sums, place: u32, by: u64)
    requires tree { IsTree nodes.now }
    requires place { place < length nodes.now }
    requires len { vec_len sums.old.places ≡ length nodes.now }
    requires room { (one : Option ℕ) → sum_at sums.old one + by < 2 ^ 64 }
    ensures sums { (one : Option ℕ) →
        sum_at sums.new one ≡ sum_at sums.old one + (if is_within nodes.now one place then by else 0) }
    ensures len { vec_len sums.new.places ≡ vec_len sums.old.places }
{
    sums.add(None, by);
    let mut at = Some(place);
    while let Some(place) = at {
        sums.add(at, by);
        at = nodes[place as usize].parent;
    }
}

// What root and each association have used.
pub(crate) fn usage_sums(
    alloc: Global,
    nodes: &[TreeNode],
    places: &[u32],
    usage: &[u64],
) -> Result<Sums, AllocError>
    requires tree { IsTree nodes.now }
    requires users { places.now ≡ users nodes.now }
    requires len { length usage.now ≡ length places.now }
    requires few { length usage.now ≤ 4096 }
    requires usage { All (λ used. used ≤ 4_294_967_295) usage.now }
    ensures sums { IfOk result (λ sums. (at : Option ℕ)
        → sum_at sums at ≡ usage_of nodes.now (charges nodes.now usage.now) at) }
    ensures small { IfOk result (λ sums. (at : Option ℕ) → sum_at sums at < 2 ^ 44) }
    ensures len { IfOk result (λ sums. vec_len sums.places ≡ length nodes.now) }
{
    let mut sums = Sums::new(alloc, nodes.len())?;
    for (user, place) in places.iter().enumerate() {
        charge(nodes, &mut sums, *place, usage[user]);
    }
    Ok(sums)
}

// The sum of the shares of root's children and of those of each association.
pub(crate) fn share_sums(alloc: Global, nodes: &[TreeNode]) -> Result<Sums, AllocError>
    requires { IsTree nodes.now }
    ensures sums { IfOk result (λ sums. (at : Option ℕ) → sum_at sums at ≡ children_shares nodes.now at) }
    ensures len { IfOk result (λ sums. vec_len sums.places ≡ length nodes.now) }
{
    let mut sums = Sums::new(alloc, nodes.len())?;
    for node in nodes {
        sums.add(node.parent, u64::from(node.shares));
    }
    Ok(sums)
}
