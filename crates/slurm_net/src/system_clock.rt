// The system's clock: the edge that is trusted.
ghost use Rattle.std.specs.Prelude.{◌≡◌, None};

use crate::Clock;
use std::time;
use std::time::Duration;

/// The system's clock. A moment at which the system can't read it is the one that it gave before, and 0 if there was
/// none. The runtime is what the clock is read from, such as a `&HostRuntime`; a clock that it names may be set back.
#[derive(Clone, Copy, Debug)]
pub struct SystemClock<R> {
    pub runtime: R,
    /// The moment that it gave last.
    pub last: u64,
}

impl<R> SystemClock<R> {
    pub fn new(runtime: R) -> Self
        ensures runtime { result.runtime ≡ runtime }
        ensures last { result.last ≡ 0 }
    {
        SystemClock { runtime, last: 0 }
    }
}

impl<R: time::Clock + Copy> Clock for SystemClock<R> {
    ghost moments = { λ clock. None };

    ghost course = { λ clock. None };

    fn now(&mut self) -> u64 {
        if let Ok(time) = self.runtime.since_1970() {
            self.last = time.as_secs();
        }
        self.last
    }

    fn rest(&mut self) {
        self.runtime.sleep(Duration::from_secs(1));
    }

    fn twin(&self) -> Self {
        *self
    }

    ghost on_course = { λ clock. tt };
}
