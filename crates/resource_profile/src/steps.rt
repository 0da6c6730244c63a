ghost use Rattle.std.specs.Prelude.{◌≡◌, ℕ};
ghost use Rattle.resource_profile.specs.Counts.{ticked};

use std::marker::{Model, PhantomData};

/// The kind of a count that is shared with no other.
#[derive(Clone, Copy, Debug, PartialEq, Eq)]
pub struct Plain;

/// How many placements were searched for. `L` is the kind of the count, so that counts of two kinds aren't taken for
/// one another.
pub struct Steps<L> {
    count: u64,
    kind: PhantomData<L>,
}

impl<L> Model for Steps<L> {
    ghost Value = { ℕ };

    ghost view = { λ steps. steps.count };
}

impl<L> Drop for Steps<L> {
    fn drop(self) {
        let Steps { count: _, kind: _ } = self;
    }
}

/// A count that stands at 0.
pub fn start() -> Steps<Plain>
    ensures { result ≡ 0 }
{
    Steps {
        count: 0,
        kind: PhantomData,
    }
}

impl<L> Steps<L> {
    /// Counts one more. The count stands still at 18,446,744,073,709,551,615.
    pub fn tick(&mut self)
        ensures { self.new ≡ ticked self.old 1 }
    {
        self.count = self.count.saturating_add(1);
    }

    pub fn count(&self) -> u64
        ensures { result ≡ self.now }
    {
        self.count
    }
}
