// Where moments come from.
ghost use Rattle.std.specs.Prelude.{◌≡◌, ℕ, [], List, Option, Some, IfSome};
ghost use Rattle.slurm_net.specs.Course.{Course, FollowsCourse, AddsMoment, GoesOnTelling};

/// Where moments come from (own). A moment is a number of seconds since 1970 began, in UTC. No call fails.
pub trait Clock {
    /// The moments that it has given so far, oldest first, where the clock tells them.
    ghost moments: { Self → Option (List ℕ) };

    /// Its course, where the clock tells it: which moments it gives follows from that.
    ghost course: { Self → Option Course };

    /// Reads the clock.
    fn now(&mut self) -> u64
        ensures moments { AddsMoment (moments self.old) (moments self.new) result }
        ensures tells { GoesOnTelling (course self.old) (moments self.old) (moments self.new) }
        ensures course { course self.new ≡ course self.old };

    /// Waits, on the system's clock about a second and in memory not at all.
    fn rest(&mut self)
        ensures moments { moments self.new ≡ moments self.old }
        ensures course { course self.new ≡ course self.old };

    /// Another clock of the same time, which has given no moment yet.
    fn twin(&self) -> Self
        ensures moments { IfSome (moments result) (λ given. given ≡ []) }
        ensures tells { IfSome (course self.now) (λ _. moments result ≡ Some []) }
        ensures course { course result ≡ course self.now };

    ghost on_course: { (clock : Self) → FollowsCourse (course clock) (moments clock) };
}
