//! The associations, as far as they are read, with indexes of their names.

ghost use Rattle.std.specs.Prelude.{◌≡◌, ◌<◌, ◌^◌, slice_get, option_copied};
ghost use Rattle.plain_data.specs.Assocs.{greatest_depth};
ghost use Rattle.assoc_reader.specs.Tree.{is_root, depth_of};

use crate::assoc_words::AssocWords;
use crate::counts::Counts;
use crate::name_index::NameIndex;
use crate::refusal::AssocKind;
use plain_data::assoc::AssocConf;
use plain_data::items::Items;
use small_texts::memory_error::Memory;
use small_texts::name::Name;
use std::alloc::Global;
use std::marker::Model;

const MOST_USERS: u32 = 4_096;

const MOST_CHILDREN: u32 = 256;

const GREATEST_DEPTH: usize = 16;

/// Associations in order, and the account of the next ones. A contract sees the list of them and the place of that
/// account.
#[derive(Drop)]
pub(crate) struct AssocTree {
    assocs: Vec<AssocConf>,
    parent: Option<u32>,
    names: NameIndex,
    counts: Counts,
}

impl Model for AssocTree {
    ghost use Rattle.assoc_reader.specs.Tree.{TreeView};

    ghost Value = { TreeView };

    ghost use Rattle.assoc_reader.specs.Tree.{IsTree};
    ghost use Rattle.assoc_reader.specs.Index.{Indexes, IsCount};

    ghost view = { λ tree. record { assocs = tree.assocs.items; parent = tree.parent } };

    ghost invariant = { λ tree. IsTree (record { assocs = tree.assocs.items; parent = tree.parent })
        × Indexes tree.names tree.assocs.items
        × IsCount tree.counts tree.assocs.items };
}

fn is_root(name: &[u8]) -> bool
    ensures { result ≡ is_root name.now }
{
    name == b"root".as_slice()
}

fn greatest_depth() -> usize
    ensures value { result ≡ greatest_depth }
    ensures small { result < 2 ^ 32 }
{
    GREATEST_DEPTH
}

fn assoc_at(assocs: &[AssocConf], place: u32) -> Option<&AssocConf>
    ensures { option_copied result ≡ slice_get assocs.now place }
{
    assocs.get(place as usize)
}

// How deep an account stands, root at 0: a step for each level.
fn depth_of(parent: Option<u32>, assocs: &[AssocConf]) -> usize
    ensures { result ≡ depth_of parent assocs.now }
{
    let mut at = parent;
    let levels = greatest_depth() + 1;
    for level in 0..levels {
        let Some(place) = at else {
            return level;
        };
        let Some(assoc) = assoc_at(assocs, place) else {
            return level;
        };
        at = assoc.parent;
    }
    levels
}

impl AssocTree {
    ghost use Rattle.std.specs.Prelude.{◌≡◌, ◌∷◌, ◌++◌, [], None, OnOk, IfOk, IfSome, nat_le};
    ghost use Rattle.assoc_reader.specs.Tree.{TreeView, no_assocs, parent_named, users_in, children_of, is_named, is_full, name_fault, with_assoc, IsAccountAt, IsTree};

    /// None, and root for the next ones.
    #[tactic(auto, unfolding(crate::specs::Tree::no_assocs))]
    pub(crate) fn new(alloc: Global) -> AssocTree
        ensures { result ≡ no_assocs }
    {
        AssocTree {
            assocs: Vec::new(alloc),
            parent: None,
            names: NameIndex::new(alloc),
            counts: Counts::new(alloc),
        }
    }

    /// An account as the parent of others, None being root.
    #[tactic(auto, unfolding(crate::specs::Tree::parent_named))]
    pub(crate) fn parent_named(&self, name: &Name) -> Option<Option<u32>>
        ensures value { result ≡ parent_named name.now self.now.assocs }
        ensures there { IfSome result (λ parent. IfSome parent (IsAccountAt self.now.assocs)) }
    {
        if is_root(name.as_bytes()) {
            return Some(None);
        }
        match self.names.account(name) {
            Some(place) => Some(Some(place)),
            None => None,
        }
    }

    /// Makes it the account of the next ones.
    pub(crate) fn set_parent(&mut self, parent: Option<u32>)
        requires { IfSome parent (IsAccountAt self.old.assocs) }
        ensures { self.new ≡ record self.old { parent = parent } }
    {
        self.parent = parent;
    }

    #[tactic(auto, unfolding(crate::specs::Tree::is_named))]
    fn is_named(&self, user: bool, name: &Name) -> Result<bool, Memory>
        ensures { IfOk result (λ named. named ≡ is_named self.now user name.now) }
    {
        if user {
            self.names.has_user(self.parent, name)
        } else {
            Ok(self.parent_named(name).is_some())
        }
    }

    fn has_most_users(&self) -> bool
        ensures { result ≡ nat_le 4_096 (users_in self.now.assocs) }
    {
        self.counts.users >= MOST_USERS
    }

    fn has_most_children(&self) -> bool
        ensures { result ≡ nat_le 256 (children_of self.now.parent self.now.assocs) }
    {
        self.counts.children(self.parent) >= MOST_CHILDREN
    }

    #[tactic(auto, unfolding(crate::specs::Tree::is_full))]
    fn is_full(&self, user: bool) -> bool
        ensures { result ≡ is_full self.now user }
    {
        (user && self.has_most_users())
            || self.has_most_children()
            || depth_of(self.parent, self.assocs.as_slice()) >= greatest_depth()
    }

    /// What is wrong with the name of one more.
    #[tactic(auto, unfolding(crate::specs::Tree::name_fault))]
    pub(crate) fn name_fault(&self, user: bool, name: &Name) -> Result<Option<AssocKind>, Memory>
        ensures { IfOk result (λ fault. fault ≡ name_fault self.now user name.now) }
    {
        if self.is_named(user, name)? {
            Ok(Some(AssocKind::TwiceNamed))
        } else if self.is_full(user) {
            Ok(Some(AssocKind::OverLimit))
        } else {
            Ok(None)
        }
    }

    /// Puts one more behind the others.
    #[tactic(auto, unfolding(crate::specs::Tree::with_assoc, crate::specs::Tree::assoc_conf))]
    pub(crate) fn push(&mut self, user: bool, name: Name, words: AssocWords) -> Result<(), Memory>
        requires { name_fault self.old user name ≡ None }
        ensures { OnOk result (self.new ≡ with_assoc self.old user name words) }
    {
        let place = u32::try_from(self.assocs.len()).map_err(|_| Memory)?;
        let assoc = AssocConf {
            parent: self.parent,
            name,
            user,
            shares: words.shares,
            default_account: words.default_account,
            limits: words.limits,
        };
        self.assocs.reserve(1)?;
        self.counts.grow()?;
        self.names.add(&assoc, place)?;
        self.counts.add(user, self.parent);
        self.assocs.push(assoc).unwrap();
        Ok(())
    }

    /// The associations, without the indexes.
    pub(crate) fn into_items(self) -> Items<AssocConf>
        ensures value { result ≡ self.assocs }
        ensures sound { IsTree self }
    {
        Items::from_vec(self.assocs)
    }
}
