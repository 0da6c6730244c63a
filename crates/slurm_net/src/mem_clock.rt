// A clock in memory, for tests.
ghost use Rattle.std.specs.Prelude.{◌≡◌, ℕ, ◌<◌, [], Some, IfSome};
ghost use Rattle.slurm_net.specs.Course.{AddsMoment, GoesOnTelling, moment_at};

use crate::Clock;

/// A clock in memory (own): its first reading gives `first`, and each later one a moment by `step` later, up to the
/// greatest `u64`.
#[derive(Clone, Copy, Debug, PartialEq, Eq)]
pub struct MemClock {
    pub first: u64,
    pub step: u64,
    /// How many readings there were, up to the greatest `u64`.
    pub readings: u64,
}

impl MemClock {
    pub fn new(first: u64, step: u64) -> MemClock
        ensures { result ≡ record { first = first; step = step; readings = 0 } }
    {
        MemClock {
            first,
            step,
            readings: 0,
        }
    }
}

impl Clock for MemClock {
    ghost use Rattle.slurm_io.specs.Faults.{next_count};
    ghost use Rattle.slurm_net.specs.MemClock.{course_of, moments_of, moments_of-follow};

    ghost moments = { moments_of };

    ghost course = { λ clock. Some (course_of clock) };

    fn now(&mut self) -> u64
        ensures moments { AddsMoment (moments_of self.old) (moments_of self.new) result }
        ensures tells { GoesOnTelling (Some (course_of self.old)) (moments_of self.old) (moments_of self.new) }
        ensures course { Some (course_of self.new) ≡ Some (course_of self.old) }
        ensures moment { result ≡ moment_at (course_of self.old) self.old.readings }
        ensures counted { self.new ≡ record self.old { readings = next_count self.old.readings } }
    {
        let past = self.readings.saturating_mul(self.step);
        self.readings = self.readings.saturating_add(1);
        self.first.saturating_add(past)
    }

    fn rest(&mut self)
        ensures moments { moments_of self.new ≡ moments_of self.old }
        ensures course { Some (course_of self.new) ≡ Some (course_of self.old) }
        ensures kept { self.new ≡ self.old }
    {}

    fn twin(&self) -> MemClock
        ensures moments { IfSome (moments_of result) (λ given. given ≡ []) }
        ensures tells { IfSome (Some (course_of self.now)) (λ _. moments_of result ≡ Some []) }
        ensures course { Some (course_of result) ≡ Some (course_of self.now) }
        ensures made { result ≡ record { first = self.now.first; step = self.now.step; readings = 0 } }
    {
        MemClock::new(self.first, self.step)
    }

    ghost on_course = { moments_of-follow };
}
