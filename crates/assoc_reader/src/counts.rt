//! How many users there are, and how many associations belong to each account.

use small_texts::memory_error::Memory;
use std::alloc::Global;

/// The numbers of users and of children.
#[derive(Drop)]
pub(crate) struct Counts {
    pub(crate) users: u32,
    /// The children of root.
    pub(crate) of_root: u32,
    /// The children of each association.
    pub(crate) of_each: Vec<u32>,
}

impl Counts {
    ghost use Rattle.std.specs.Prelude.{ℕ, ◌≡◌, ◌≢◌, ◌+◌, ◌<◌, ◌≤◌, ◌^◌, ◌∷◌, ◌++◌, [], List, Option, length, if◌then◌else◌, OnOk, OnErr, IfSome};
    ghost use Rattle.plain_data.specs.Assocs.{is_same_place};
    ghost use Rattle.plain_data.specs.declared.assoc.AssocConf.{AssocConf};
    ghost use Rattle.assoc_reader.specs.Index.{IsCount, kept_for};

    /// None.
    pub(crate) fn new(alloc: Global) -> Counts
        ensures { IsCount result [] }
    {
        Counts {
            users: 0,
            of_root: 0,
            of_each: Vec::new(alloc),
        }
    }

    /// The children of an account; None is root.
    pub(crate) fn children(&self, parent: Option<u32>) -> u32
        requires { IfSome parent (λ place. place < length self.now.of_each.items) }
        ensures { result ≡ kept_for parent self.now }
    {
        match parent {
            Some(place) => self.of_each[place as usize],
            None => self.of_root,
        }
    }

    /// Makes room for the children of one more.
    pub(crate) fn grow(&mut self) -> Result<(), Memory>
        ensures still { (assocs : List AssocConf) → IsCount self.old assocs → IsCount self.new assocs }
        ensures more { OnOk result (length self.new.of_each.items ≡ length self.old.of_each.items + 1) }
    {
        self.of_each.push(0)?;
        Ok(())
    }

    /// Counts one more.
    pub(crate) fn add(&mut self, user: bool, parent: Option<u32>)
        requires inside { IfSome parent (λ place. place < length self.old.of_each.items) }
        requires users { self.old.users < 2 ^ 31 }
        requires children { kept_for parent self.old < 2 ^ 31 }
        ensures users { self.new.users ≡ self.old.users + (if user then 1 else 0) }
        ensures children { (other : Option ℕ)
            → kept_for other self.new ≡ kept_for other self.old + (if is_same_place parent other then 1 else 0) }
        ensures size { length self.new.of_each.items ≡ length self.old.of_each.items }
    {
        if user {
            self.users += 1;
        }
        match parent {
            Some(place) => self.of_each[place as usize] += 1,
            None => self.of_root += 1,
        }
    }
}
