//! How far replays are, told on the standard error stream.

use replay_run::{Progress, Watch};
use std::io;
use std::io::IsTerminal;
use std::time::Instant;

/// Tells how far a replay is: each second where the stream is a terminal, and at its end.
#[derive(Drop)]
pub(crate) struct Teller<'a> {
    rt: &'a HostRuntime,
    is_terminal: bool,
    /// When the replay began, where the clock tells.
    begun: Option<Instant>,
    /// How many seconds of it were told last.
    told: u64,
}

impl<'a> Teller<'a> {
    pub(crate) fn new(rt: &'a HostRuntime) -> Self {
        Teller {
            rt,
            is_terminal: rt.stderr().is_terminal(),
            begun: None,
            told: 0,
        }
    }

    // How many seconds the replay takes so far; none where the clock doesn't tell.
    fn seconds(&self) -> u64 {
        match self.begun {
            Some(begun) => match begun.elapsed(self.rt) {
                Ok(time) => time.as_secs(),
                Err(_) => 0,
            },
            None => 0,
        }
    }

    // Writes how far the replay is, at a terminal over what was written last.
    fn write(&self, progress: Progress, seconds: u64, end: &str) -> io::Result<()> {
        let start = if self.is_terminal { "\r" } else { "" };
        let Progress {
            handed_in,
            jobs,
            passes,
        } = progress;
        eprint!(self.rt;
            "{start}slurm_replay: {handed_in} of {jobs} jobs handed in, {passes} passes, {seconds} seconds{end}"
        )
    }
}

impl<'a> Watch for Teller<'a> {
    fn begin(&mut self) {
        self.begun = Instant::now(self.rt).ok();
        self.told = 0;
    }

    fn is_due(&mut self) -> bool {
        self.is_terminal && self.told < self.seconds()
    }

    // A stream that takes no more is told nothing more.
    fn tell(&mut self, progress: Progress) {
        self.told = self.seconds();
        self.is_terminal = self.write(progress, self.told, "").is_ok();
    }

    fn end(&mut self, progress: Progress) {
        let _ = self.write(progress, self.seconds(), "\n");
    }
}
