// Where connections come.
ghost use Rattle.std.specs.Prelude.{◌≡◌, ℕ, List, Option, None, IsSome};
ghost use Rattle.slurm_io.specs.Wire.{Wire};
ghost use Rattle.slurm_io.specs.Faults.{CountsFault};
ghost use Rattle.slurm_net.specs.Accepted.{IfCame, IsNewLink, out_after};
ghost use Rattle.slurm_net.specs.Session.{LinkSession, AddsSession};

use slurm_io::{Failed, Link};

/// What came to a door (own).
#[derive(Debug, PartialEq, Eq, Drop)]
pub enum Accepted<L> {
    /// A connection.
    Came(L),
    /// None is waiting.
    Nobody,
}

/// What is kept of how one connection was served (own).
#[derive(Clone, Copy, Debug, PartialEq, Eq)]
pub struct Cut {
    /// How many entries of the history were seen before it.
    pub before: u64,
    /// How many were seen after it.
    pub after: u64,
    /// How many blocks were answered.
    pub answered: u64,
    /// How often the clock was read.
    pub readings: u64,
}

/// Where connections come, one at a time: each is handed back before the next is accepted (own).
pub trait Door {
    type Link: Link;

    /// How many calls of `accept` failed, up to the greatest `u64`.
    ghost door_faults: { Self → ℕ };

    /// Of each link that was handed back, in order, what came of it, where the door tells this.
    ghost sessions: { Self → Option (List LinkSession) };

    /// The link that is out, as it came.
    ghost out: { Self → Option Wire };

    /// Looks for the next connection.
    fn accept(&mut self) -> Result<Accepted<Self::Link>, Failed>
        requires { out self.old ≡ None }
        ensures fresh { IfCame result (λ link. IsNewLink (Self.Link.wire link)) }
        ensures out { out self.new ≡ out_after Self.Link.wire result }
        ensures faults { CountsFault (door_faults self.old) (door_faults self.new) result }
        ensures kept { sessions self.new ≡ sessions self.old };

    /// Takes a link back that came here.
    fn done(&mut self, link: Self::Link, cut: Cut)
        requires { IsSome (out self.old) }
        ensures sessions { AddsSession (sessions self.old) (sessions self.new) (out self.old) (Self.Link.wire link) cut }
        ensures out { out self.new ≡ None }
        ensures faults { door_faults self.new ≡ door_faults self.old };
}
