//! Jobs that are drawn from a number (own).

/// A job of a script.
#[derive(Clone, Copy, Debug, PartialEq, Eq)]
pub struct Job {
    /// The second at which it is handed in.
    pub moment: u64,
    /// The number in its user's name: `u1` to `u4`.
    pub user: u32,
    /// Its number of tasks, 1 to 32: `-n` of sbatch(1).
    pub tasks: u32,
    /// Its limit, 1 to 240 minutes: `-t` of sbatch(1).
    pub minutes: u32,
    /// How many seconds it runs, 1 to 9,000, which may be past its limit.
    pub seconds: u32,
}

impl Job {
    ghost use Rattle.std.specs.Prelude.{◌≡◌, ◌<◌, ◌^◌};
    ghost use Rattle.generator.specs.Generated.{job_of};

    /// The job of a draw, up to 6 seconds behind the moment of the job before it.
    pub(crate) fn drawn(before: u64, draw: u32) -> Job
        requires { before < 2 ^ 63 }
        ensures { result ≡ job_of before draw }
    {
        Job {
            moment: before + u64::from(draw % 7),
            user: 1 + draw % 4,
            tasks: 1 + draw % 32,
            minutes: 1 + draw / 32 % 240,
            seconds: 1 + draw % 9_000,
        }
    }
}
