//! How far a replay is, and who is told of it.

/// How far a replay is (own).
#[derive(Clone, Copy)]
pub struct Progress {
    /// How many jobs were handed in, and of how many.
    pub handed_in: usize,
    pub jobs: usize,
    /// How many passes were made.
    pub passes: u64,
}

/// Who looks on while replays are worked, one after the other (own).
pub trait Watch {
    /// A replay begins.
    fn begin(&mut self);

    /// Whether it is time to be told how far it is. This is asked behind each event.
    fn is_due(&mut self) -> bool;

    fn tell(&mut self, progress: Progress);

    /// The replay is over.
    fn end(&mut self, progress: Progress);
}

/// Nobody looks on.
#[derive(Drop)]
pub struct Unwatched;

impl Watch for Unwatched {
    fn begin(&mut self) {}

    fn is_due(&mut self) -> bool {
        false
    }

    fn tell(&mut self, _progress: Progress) {}

    fn end(&mut self, _progress: Progress) {}
}
