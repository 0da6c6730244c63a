//! Passes, by which threads take turns.

ghost use Rattle.std.specs.Prelude.{◌≡◌};
ghost use Rattle.turn_lock.specs.Passes.{IsKnown};

use crate::kept::Kept;
use crate::rule::LockSeat;
use std::marker::Model;

/// A right to take turns at a lock. Contracts see it as what it knows (`PassView`).
#[derive(Drop)]
pub struct Pass<B: Kept<E>, E> {
    pub(crate) seat: LockSeat<B, E>,
    pub(crate) number: u32,
}

impl<B: Kept<E>, E> Model for Pass<B, E> {
    ghost use Rattle.std.specs.Prelude.{false, []};
    ghost use Rattle.turn_lock.specs.Passes.{PassView, pass_of, IsSeated};

    ghost Value = { PassView B E };

    ghost view = { λ pass. pass_of pass.seat.table_id pass.number pass.seat.me.0 };

    ghost invariant = { λ pass. IsSeated B.bearer pass.number false [] pass.seat.me };
}

impl<B: Kept<E>, E> Pass<B, E> {
    /// The number that the entries of this pass bear. It takes no memory.
    pub fn number(&self) -> u32
        ensures number { result ≡ self.now.number }
        ensures known { IsKnown B.bearer self.now }
    {
        self.number
    }
}

/// The turn at a lock. Contracts see it as the pass that took it.
pub struct Turn<B: Kept<E>, E> {
    pub(crate) seat: LockSeat<B, E>,
    pub(crate) number: u32,
}

impl<B: Kept<E>, E> Model for Turn<B, E> {
    ghost use Rattle.std.specs.Prelude.{true, [], ◌∷◌, None};
    ghost use Rattle.turn_lock.specs.Passes.{PassView, pass_of, IsSeated};

    ghost Value = { PassView B E };

    ghost view = { λ turn. pass_of turn.seat.table_id turn.number turn.seat.me.0 };

    ghost invariant = { λ turn. IsSeated B.bearer turn.number true ((0, None) ∷ []) turn.seat.me };
}

impl<B: Kept<E>, E> Turn<B, E> {
    /// The number that the entries of this pass bear. It takes no memory.
    pub fn number(&self) -> u32
        ensures number { result ≡ self.now.number }
        ensures known { IsKnown B.bearer self.now }
    {
        self.number
    }
}

/// The value of a lock, for as long as somebody has the turn. It is given back by `leave`, or kept by `finish`.
pub struct Held<B: Kept<E>, E> {
    pub value: B,
    pub turn: Turn<B, E>,
}
