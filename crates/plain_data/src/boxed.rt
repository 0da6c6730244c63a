//! Values that lie apart from what names them.

ghost use Rattle.std.specs.Prelude.{◌≡◌, IfOk};

use crate::Plain;
use small_texts::memory_error::Memory;
use std::alloc::Global;
use std::fmt;
use std::marker::Model;
use std::ops::Deref;

/// A value in memory of its own, so that what holds it stays small. A contract sees it as the value (own).
#[derive(Drop)]
pub struct Boxed<T> {
    value: Box<T>,
}

impl<T> Model for Boxed<T> {
    ghost Value = { T };

    ghost view = { λ boxed. boxed.value.value };
}

impl<T: PartialEq> PartialEq for Boxed<T> {
    ghost eq = { T.eq };

    ghost laws = { T.laws };

    fn eq(&self, other: &Self) -> bool {
        *self.value == *other.value
    }
}

impl<T: fmt::Debug> fmt::Debug for Boxed<T> {
    fn fmt<W: fmt::Write>(&self, f: &mut fmt::Formatter<W>) -> fmt::Result {
        fmt::Debug::fmt(&*self.value, f)
    }
}

impl<T> Deref for Boxed<T> {
    type Target = T;

    ghost deref_gives = { λ boxed value. value ≡ boxed };

    fn deref(&self) -> &T
        ensures { result.now ≡ self.now }
    {
        self.value()
    }
}

impl<T> Boxed<T> {
    /// The value.
    pub fn value(&self) -> &T
        ensures { result.now ≡ self.now }
    {
        &self.value
    }
}

impl<T: Drop> Boxed<T> {
    /// This value.
    pub fn new(alloc: Global, value: T) -> Result<Boxed<T>, Memory>
        ensures { IfOk result (λ boxed. boxed ≡ value) }
    {
        Ok(Boxed {
            value: Box::new(alloc, value)?,
        })
    }

    /// Where it has its memory from.
    pub fn allocator(&self) -> Global {
        *Box::allocator(&self.value)
    }
}

impl<T: Plain> Plain for Boxed<T> {
    fn copy(&self) -> Result<Boxed<T>, Memory> {
        Boxed::new(self.allocator(), self.value().copy()?)
    }
}
