//! Whose turn it is.

ghost use Rattle.std.specs.Prelude.{◌≡◌, ◌<◌, ◌+◌, ◌%◌};

/// Whose turn it is among desks that are asked one after the other, and behind the last the first again.
#[derive(Clone, Copy, Debug, PartialEq, Eq)]
pub(crate) struct Rota {
    next: usize,
}

impl Rota {
    /// It is the first one's turn.
    pub(crate) fn new() -> Rota
        ensures { result.next ≡ 0 }
    {
        Rota { next: 0 }
    }

    /// The place of the desk whose turn it is, among so many. Then it is the turn of the one behind it.
    pub(crate) fn take(&mut self, desks: usize) -> usize
        requires { 0 < desks }
        ensures within { result < desks }
        ensures place { result ≡ self.old.next % desks }
        ensures next { self.new.next ≡ result + 1 }
    {
        let place = self.next % desks;
        self.next = place + 1;
        place
    }
}
