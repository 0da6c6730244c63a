//! The rule of the lock's table.
//! Word 0 is twice the number of entries, and one more while somebody has the turn.
//! Word 1 is how many numbers of passes were given. Slot 0 has the value while nobody has the turn.

use crate::kept::Kept;
use crate::view::View;
use atomic_table::{Seat, Shared, Table, TableRule};
use std::alloc::Global;
use std::marker::PhantomData;
use std::snapshot::Snapshot;

/// The rule for a lock of this kind of value.
pub struct Turns<B, E> {
    kept: PhantomData<(B, E)>,
}

impl<B: Kept<E>, E> TableRule<Option<B>, View<B, E>, Snapshot<B>> for Turns<B, E> {
    ghost use Rattle.turn_lock.specs.Rule.{Ruled, first_view};

    ghost holds = { λ key. Ruled B.entries B.bearer B.begins_as key.value };

    ghost first = { λ key. first_view key.value };
}

pub type LockTable<B, E> = Table<Option<B>, View<B, E>, Snapshot<B>, Turns<B, E>, Global>;

pub type LockShared<B, E> = Shared<Option<B>, View<B, E>, Snapshot<B>, Turns<B, E>>;

pub type LockSeat<B, E> = Seat<Option<B>, View<B, E>>;
