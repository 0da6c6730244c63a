//! What each step on the lock's table tells its caller.

use crate::kept::Kept;
use crate::view::View;
use atomic_table::{Join, Play, Split};
use std::marker::PhantomData;

/// The first word is read.
pub(crate) struct LookStep<B, E> {
    kept: PhantomData<(B, E)>,
}

impl<B: Kept<E>, E> Play<Option<B>, View<B, E>> for LookStep<B, E> {
    ghost use Rattle.turn_lock.specs.Steps.{Looked};

    ghost then = { λ _ before word after. Looked B.bearer before word after };
}

/// The turn is taken, where the first word is as expected.
pub(crate) struct TakeStep<B, E> {
    kept: PhantomData<(B, E)>,
}

impl<B: Kept<E>, E> Play<Option<B>, View<B, E>> for TakeStep<B, E> {
    ghost use Rattle.turn_lock.specs.Steps.{Takes};

    ghost then = { λ step before word after. Takes B.entries B.bearer B.begins_as step before word after };
}

/// The turn is given back.
pub(crate) struct LeaveStep<B, E> {
    kept: PhantomData<(B, E)>,
}

impl<B: Kept<E>, E> Play<Option<B>, View<B, E>> for LeaveStep<B, E> {
    ghost use Rattle.turn_lock.specs.Steps.{GaveBack};

    ghost then = { λ _ before _ after. GaveBack B.entries B.bearer before after };
}

/// The second word is read.
pub(crate) struct NumberLookStep;

impl<B, E> Play<Option<B>, View<B, E>> for NumberLookStep {
    ghost use Rattle.turn_lock.specs.Steps.{CountedPasses};

    ghost then = { λ _ before word after. CountedPasses before word after };
}

/// A number is taken, where the second word is as expected.
pub(crate) struct NumberStep<B, E> {
    kept: PhantomData<(B, E)>,
}

impl<B: Kept<E>, E> Play<Option<B>, View<B, E>> for NumberStep<B, E> {
    ghost use Rattle.turn_lock.specs.Steps.{TakesNumber};

    ghost then = { λ step before word after. TakesNumber B.bearer step before word after };
}

/// A new view, without a number, has seen as much.
pub(crate) struct Cut;

impl<B, E> Split<View<B, E>> for Cut {
    ghost use Rattle.turn_lock.specs.Steps.{unnumbered};

    ghost left = { λ view. view };

    ghost right = { λ view. unnumbered view };
}

/// A view takes in another.
pub(crate) struct Glue;

impl<B, E> Join<View<B, E>> for Glue {
    ghost use Rattle.turn_lock.specs.Steps.{joined, blank};

    ghost both = { λ view other. joined view other };

    ghost spent = { blank };
}
