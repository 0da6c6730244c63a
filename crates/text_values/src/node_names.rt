//! Nodes that a job or a request names.

ghost use Rattle.std.specs.Prelude.{◌≡◌, ◌≤◌, [], length};

use plain_data::items::Items;
use small_texts::name::Name;
use std::alloc::Global;
use std::marker::Model;

/// Names of nodes. A contract sees them as a list of 1,024 names at most (own).
#[derive(Drop)]
pub struct NodeNames {
    names: Vec<Name>,
}

impl Model for NodeNames {
    ghost use Rattle.std.specs.Prelude.{ℕ, List, ◌≤◌, length};

    ghost Value = { List (List ℕ) };

    ghost view = { λ nodes. nodes.names.items };

    ghost invariant = { λ nodes. length nodes.names.items ≤ 1024 };
}

impl NodeNames {
    /// No names.
    pub fn new(alloc: Global) -> NodeNames
        ensures { result ≡ [] }
    {
        NodeNames {
            names: Vec::new(alloc),
        }
    }

    /// These names. It takes no memory.
    pub fn from_vec(names: Vec<Name>) -> NodeNames
        requires { length names.items ≤ 1024 }
        ensures { result ≡ names.items }
    {
        NodeNames { names }
    }

    /// How many there are.
    pub fn count(&self) -> u64
        ensures value { result ≡ length self.now }
        ensures few { result ≤ 1024 }
    {
        self.names.len() as u64
    }

    /// The names as plain data. It takes no memory.
    pub fn into_items(self) -> Items<Name>
        ensures { result ≡ self }
    {
        Items::from_vec(self.names)
    }
}
