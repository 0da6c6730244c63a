//! The names of associations: a look-up costs the same however many there are.

use plain_data::assoc::AssocConf;
use small_texts::memory_error::Memory;
use small_texts::name::Name;
use std::alloc::Global;
use std::collections::{HashMap, HashSet};

/// The names that are taken.
#[derive(Drop)]
pub(crate) struct NameIndex {
    /// The places of the accounts.
    pub(crate) accounts: HashMap<Name, u32>,
    /// The users, each with the place of its account; None is root.
    pub(crate) users: HashSet<(Option<u32>, Name)>,
}

impl NameIndex {
    ghost use Rattle.std.specs.Prelude.{ℕ, ◌≡◌, ◌∷◌, ◌++◌, [], List, length, bytes_eq, false, None, OnOk, OnErr, IfOk};
    ghost use Rattle.std.specs.HashMap.{get};
    ghost use Rattle.std.specs.HashSet.{contains};
    ghost use Rattle.plain_data.specs.declared.assoc.AssocConf.{AssocConf};
    ghost use Rattle.assoc_reader.specs.Index.{Indexes, is_same_user};
    ghost use Rattle.assoc_reader.specs.Tree.{account_place};

    /// No names.
    pub(crate) fn new(alloc: Global) -> NameIndex
        ensures { Indexes result [] }
    {
        NameIndex {
            accounts: HashMap::new(alloc),
            users: HashSet::new(alloc),
        }
    }

    /// The place of an account.
    pub(crate) fn account(&self, name: &Name) -> Option<u32>
        ensures { result ≡ get bytes_eq self.now.accounts name.now }
    {
        self.accounts.get(name).copied()
    }

    /// Whether there is such a user of an account.
    pub(crate) fn has_user(&self, parent: Option<u32>, name: &Name) -> Result<bool, Memory>
        ensures { IfOk result (λ has. has ≡ contains is_same_user self.now.users (parent, name.now)) }
    {
        let key = (parent, name.copy()?);
        Ok(self.users.contains(&key))
    }

    /// Takes up the name of the association at a place, which must be new.
    pub(crate) fn add(&mut self, assoc: &AssocConf, place: u32) -> Result<(), Memory>
        ensures more { OnOk result ((assocs : List AssocConf) → Indexes self.old assocs → length assocs ≡ place
            → (assoc.now.user ≡ false → account_place assoc.now.name assocs ≡ None)
            → Indexes self.new (assocs ++ assoc.now ∷ [])) }
        ensures kept { OnErr result ((assocs : List AssocConf) → Indexes self.old assocs → Indexes self.new assocs) }
    {
        let name = assoc.name.copy()?;
        if assoc.user {
            self.users.insert((assoc.parent, name))?;
        } else {
            self.accounts.insert(name, place)?;
        }
        Ok(())
    }
}
