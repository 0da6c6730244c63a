//! What moves with the nodes of a new file, as plain data.

ghost use Rattle.std.specs.Prelude.{◌≤◌, length};

use node_state::record::DroppedNode;
use small_texts::name::Name;

/// What moves where the nodes of a new file stand in another order, or are others.
#[derive(Drop)]
pub(crate) struct Moves {
    /// For each old place of a node its new one.
    pub parts: Vec<u32>,
    /// For each new place of a node, of which there are 1,024 at most, its old one, if it was there.
    pub origins: Vec<Option<u32>>,
    /// For each old place in a plan the new one; None where they stay.
    pub shares: Option<Vec<u32>>,
    /// The nodes that were heard and are dropped then.
    pub dropped: Vec<DroppedNode>,
    /// The names that the plan names and that are no longer there.
    pub gone: Vec<Name>,
    ghost few_nodes: { length origins.items ≤ 1024 },
}
