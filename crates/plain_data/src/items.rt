//! Lists of plain data.

ghost use Rattle.std.specs.Prelude.{◌≡◌, IfOk};
ghost use Rattle.std.specs.Cmp.Lexicographic.{lists_per, pointwise};
ghost use Rattle.std.specs.Slice.Iter.{iter_rest};

use crate::Plain;
use small_texts::memory_error::Memory;
use std::marker::Model;
use std::{fmt, slice};

/// A list of plain data. A contract sees it as the list of its members, in order (own).
#[derive(Drop)]
pub struct Items<T> {
    items: Vec<T>,
}

impl<T> Model for Items<T> {
    ghost use Rattle.std.specs.Prelude.{List};

    ghost Value = { List T };

    ghost view = { λ list. list.items.items };
}

impl<T: PartialEq> PartialEq for Items<T> {
    ghost eq = { pointwise T.eq };

    ghost laws = { lists_per T.laws };

    fn eq(&self, other: &Self) -> bool {
        self.items == other.items
    }
}

impl<T: fmt::Debug> fmt::Debug for Items<T> {
    fn fmt<W: fmt::Write>(&self, f: &mut fmt::Formatter<W>) -> fmt::Result {
        fmt::Debug::fmt(&self.items, f)
    }
}

impl<T> Items<T> {
    /// These members. It takes no memory.
    pub fn from_vec(items: Vec<T>) -> Self
        ensures { result ≡ items.items }
    {
        Items { items }
    }

    /// The members again. It takes no memory.
    pub fn into_vec(self) -> Vec<T>
        ensures { result.items ≡ self }
    {
        self.items
    }

    /// The members, one after the other.
    pub fn iter(&self) -> slice::Iter<'_, T>
        ensures { iter_rest result ≡ self.now }
    {
        self.items.iter()
    }

    /// The members in order.
    pub fn as_slice(&self) -> &[T]
        ensures { result.now ≡ self.now }
    {
        self.items.as_slice()
    }
}

impl<'a, T> IntoIterator for &'a Items<T> {
    type Item = &'a T;

    type IntoIter = slice::Iter<'a, T>;

    ghost into_iter_gives = { λ items it. iter_rest it ≡ items.now };

    fn into_iter(self) -> Self::IntoIter {
        self.iter()
    }
}

impl<T: Plain> Items<T> {
    /// An equal list.
    pub fn copy(&self) -> Result<Items<T>, Memory>
        ensures { IfOk result (λ copies. copies ≡ self.now) }
    {
        let mut copies = Vec::with_capacity(*self.items.allocator(), self.items.len())?;
        for item in self.items.as_slice() {
            copies.push(item.copy()?)?;
        }
        Ok(Items { items: copies })
    }
}

impl<T: Plain> Plain for Items<T> {
    fn copy(&self) -> Result<Items<T>, Memory> {
        self.copy()
    }
}
