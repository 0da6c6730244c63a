//! Nodes, with an index of their names.

use plain_data::conf::NodeConf;
use plain_data::items::Items;
use small_texts::memory_error::Memory;
use small_texts::name::Name;
use std::alloc::Global;
use std::collections::HashSet;
use std::marker::Model;

/// Nodes in order. A contract sees the list of them.
#[derive(Drop)]
pub struct NodeTable {
    nodes: Vec<NodeConf>,
    seen: HashSet<Name>,
}

impl Model for NodeTable {
    ghost use Rattle.std.specs.Prelude.{List, ℕ, ◌≡◌, bytes_eq};
    ghost use Rattle.std.specs.HashSet.{contains};
    ghost use Rattle.host_lists.specs.Hosts.{has};
    ghost use Rattle.plain_data.specs.Confs.{node_names};
    ghost use Rattle.plain_data.specs.declared.conf.NodeConf.{NodeConf};

    ghost Value = { List NodeConf };

    ghost view = { λ table. table.nodes.items };

    ghost invariant = { λ table. (name : List ℕ)
        → contains bytes_eq table.seen name ≡ has name (node_names table.nodes.items) };
}

impl NodeTable {
    ghost use Rattle.std.specs.Prelude.{◌≡◌, [], ◌∷◌, ◌++◌, length, OnOk, OnErr};
    ghost use Rattle.plain_data.specs.Confs.{node_names};
    ghost use Rattle.host_lists.specs.Hosts.{has};

    /// A table of no nodes.
    pub fn new(alloc: Global) -> NodeTable
        ensures { result ≡ [] }
    {
        NodeTable {
            nodes: Vec::new(alloc),
            seen: HashSet::new(alloc),
        }
    }

    /// How many nodes it has.
    pub fn len(&self) -> usize
        ensures { result ≡ length self.now }
    {
        self.nodes.len()
    }

    /// Whether a node has this name.
    pub fn has(&self, name: &Name) -> bool
        ensures { result ≡ has name.now (node_names self.now) }
    {
        self.seen.contains(name)
    }

    /// Puts a node behind the others.
    pub fn push(&mut self, node: NodeConf) -> Result<(), Memory>
        ensures pushed { OnOk result (self.new ≡ self.old ++ node ∷ []) }
        ensures kept { OnErr result (self.new ≡ self.old) }
    {
        let name = node.name.copy()?;
        self.nodes.reserve(1)?;
        self.seen.insert(name)?;
        self.nodes.push(node).unwrap();
        Ok(())
    }

    /// The nodes, without the index.
    pub fn into_items(self) -> Items<NodeConf>
        ensures { result ≡ self }
    {
        Items::from_vec(self.nodes)
    }
}
