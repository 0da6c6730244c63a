//! What passes know. No value of these types is made but for proofs.

use std::collections::LinkedList;

/// What kind of step on the lock's words was made.
pub enum Kind {
    /// The word of the turn was read.
    Look,
    /// The turn was there, and was taken.
    TakeWon,
    /// Another word was found than the one looked at, and the turn wasn't taken.
    TakeLost,
    /// The count of passes was read.
    NumberLook,
    /// The count of passes was the one read, and its number taken.
    NumberWon,
    /// Another count of passes was found than the one read.
    NumberLost,
}

/// A word that a step of a pass found.
pub struct Found {
    pub kind: Kind,
    pub word: u64,
}

/// The number of a pass, and the entries that bear it.
pub struct Claim<E> {
    pub number: u64,
    pub entries: LinkedList<E>,
}

/// What a pass knows.
pub struct View<B, E> {
    /// The value with which the lock was made; none, where the pass was taken in by another one.
    pub first: Option<B>,
    /// The beginning of the history that it has seen.
    pub seen: LinkedList<E>,
    /// The beginnings that passes had seen which it has taken in.
    pub told: LinkedList<LinkedList<E>>,
    /// Its own number first, and those of the passes that it has taken in, each with its entries.
    pub claims: LinkedList<Claim<E>>,
    /// Whether it has the turn.
    pub turn: bool,
    /// The words that its steps found, in order.
    pub found: LinkedList<Found>,
}
