//! Streams that wait for the other side only so long.

use std::io;
use std::io::{ErrorKind, Read, Write};
use std::net::{OpenStream, Shutdown};
use std::time::{Clock, Duration};

/// A stream of which a read or a write waits for the other side so long at the most, and the reads between two writes, or
/// the writes between two reads, so long in all. A call that would wait longer fails with `ErrorKind::WouldBlock` or
/// `ErrorKind::TimedOut`. Time that passes between calls doesn't count.
#[derive(Drop)]
pub struct TimedStream<S, R> {
    stream: S,
    runtime: R,
    /// How long a call may wait.
    longest: Duration,
    /// How long calls of one kind may wait in all.
    whole: Duration,
    /// How long they have waited since the last call of the other kind.
    waited: Duration,
    /// Whether they are writes.
    writes: bool,
    /// How long the system lets calls wait, and 0 where that wasn't set yet.
    set: Duration,
}

impl<S, R> TimedStream<S, R> {
    /// A stream over this one. Neither time is 0.
    pub fn new(stream: S, runtime: R, longest: Duration, whole: Duration) -> Self {
        TimedStream {
            stream,
            runtime,
            longest,
            whole,
            waited: Duration::ZERO,
            writes: false,
            set: Duration::ZERO,
        }
    }
}

impl<S: OpenStream, R: Clock> TimedStream<S, R> {
    // Lets the next call wait as long as it may; the moment at which it begins.
    fn begin(&mut self, writes: bool) -> io::Result<Duration> {
        if self.writes != writes {
            self.writes = writes;
            self.waited = Duration::ZERO;
        }
        let left = self.whole.saturating_sub(self.waited);
        if left.is_zero() {
            return Err(ErrorKind::TimedOut.into());
        }
        self.limit(left.min(self.longest))?;
        self.runtime.monotonic()
    }

    // Lets calls wait so long.
    fn limit(&mut self, longest: Duration) -> io::Result<()> {
        if self.set != longest {
            self.stream.set_read_timeout(Some(longest))?;
            self.stream.set_write_timeout(Some(longest))?;
            self.set = longest;
        }
        Ok(())
    }

    // Counts the time since a call began.
    fn end(&mut self, began: Duration) {
        if let Ok(now) = self.runtime.monotonic() {
            self.waited = self.waited.saturating_add(now.saturating_sub(began));
        }
    }
}

impl<S: Read + OpenStream, R: Clock> Read for TimedStream<S, R> {
    fn read(&mut self, buf: &mut [u8]) -> io::Result<usize> {
        let began = self.begin(false)?;
        let read = self.stream.read(buf);
        self.end(began);
        read
    }
}

impl<S: Write + OpenStream, R: Clock> Write for TimedStream<S, R> {
    fn write(&mut self, buf: &[u8]) -> io::Result<usize> {
        let began = self.begin(true)?;
        let written = self.stream.write(buf);
        self.end(began);
        written
    }

    fn flush(&mut self) -> io::Result<()> {
        self.stream.flush()
    }
}

impl<S: OpenStream, R> OpenStream for TimedStream<S, R> {
    fn shutdown(&self, how: Shutdown) -> io::Result<()> {
        self.stream.shutdown(how)
    }

    fn set_nonblocking(&self, nonblocking: bool) -> io::Result<()> {
        self.stream.set_nonblocking(nonblocking)
    }
}
