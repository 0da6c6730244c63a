//! What a lock keeps.

ghost use Rattle.std.specs.Prelude.{◌≡◌, ℕ, List, length};

/// A value with a history: a list of entries, each of which bears the number of a pass.
pub trait Kept<E>: Drop {
    /// The entries, in order.
    ghost entries: { Self → List E };

    /// The number that an entry bears.
    ghost bearer: { E → ℕ };

    /// What may stand where another value stood when the lock was made: what is no entry, and stays so, is as it was.
    ghost begins_as: { Self → Self → Type 0 };

    /// How many entries there are.
    fn len(&self) -> u64
        ensures { result ≡ length (entries self.now) };
}
