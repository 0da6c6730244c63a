//! The connections that have sent nothing yet.

use crate::system::{is_aborted, is_interrupted, is_wanting};
use libc::net::{POLLIN, poll};
use libc::types::pollfd;
use std::alloc::{AllocError, Global};
use std::io;
use std::io::ErrorKind;
use std::net::{OpenListener, SocketAddr};
use std::os::fd::{AsRawFd, RawFd};
use std::time::Duration;

/// How many connections wait for their first byte, at the most (own). Where one more comes, the oldest is let go.
const MOST_PENDING: usize = 1024;

/// How many seconds a connection may send nothing before it is let go (own).
const LONGEST_SILENCE: u64 = 30;

/// The longest wait of one call, in milliseconds.
const LONGEST_POLL: u128 = 60_000;

/// A connection that has sent nothing yet, where it comes from, and when it was taken in.
#[derive(Drop)]
struct Silent<S> {
    stream: S,
    from: SocketAddr,
    since: Duration,
}

/// The connections that were taken in and have sent nothing yet, oldest first. Beside room for what poll(2) is asked.
#[derive(Drop)]
pub(crate) struct Pending<S> {
    silent: Vec<Silent<S>>,
    asked: Vec<pollfd>,
}

impl<S: AsRawFd + Drop> Pending<S> {
    /// Room for as many as may wait.
    pub(crate) fn new(alloc: Global) -> Result<Self, AllocError> {
        Ok(Pending {
            silent: Vec::with_capacity(alloc, MOST_PENDING)?,
            asked: Vec::with_capacity(alloc, MOST_PENDING + 1)?,
        })
    }

    /// Takes in what has come to a listener that doesn't wait. Where a connection wants a descriptor or memory, the oldest
    /// is let go for it.
    pub(crate) fn take_in<L: OpenListener<Stream = S>>(
        &mut self,
        listener: &L,
        now: Duration,
    ) -> io::Result<()> {
        for _ in 0..MOST_PENDING {
            match listener.accept() {
                Ok((stream, from)) => self.put(Silent {
                    stream,
                    from,
                    since: now,
                }),
                Err(error) if error.kind() == ErrorKind::WouldBlock => return Ok(()),
                Err(error) if is_interrupted(&error) || is_aborted(&error) => {}
                Err(error) if is_wanting(&error) && self.let_oldest_go() => {}
                Err(error) => return Err(error),
            }
        }
        Ok(())
    }

    /// Lets those go that have sent nothing for too long.
    pub(crate) fn let_old_go(&mut self, now: Duration) {
        let longest = Duration::from_secs(LONGEST_SILENCE);
        self.silent
            .retain(|one| now.saturating_sub(one.since) < longest);
    }

    /// Waits until one of them, or a listener, has something to read, so long at the most. It answers whether it could.
    pub(crate) fn wait(&mut self, listener: RawFd, longest: Duration) -> bool {
        self.asked.clear();
        for one in &self.silent {
            let _ = self.asked.push(ask_for(one.stream.as_raw_fd()));
        }
        let _ = self.asked.push(ask_for(listener));
        let millis = longest.as_nanos().div_ceil(1_000_000).min(LONGEST_POLL) as i32;
        poll(&mut self.asked, millis) >= 0
    }

    /// Takes the oldest out that has something to read by the last wait, or that has ended.
    pub(crate) fn take_ready(&mut self) -> Option<(S, SocketAddr)> {
        let at = self.asked.iter().position(|asked| asked.revents != 0)?;
        self.asked.clear();
        if at >= self.silent.len() {
            return None;
        }
        let Silent { stream, from, .. } = self.silent.remove(at);
        Some((stream, from))
    }

    // Puts a connection behind the others, in the place of the oldest where there are too many.
    fn put(&mut self, one: Silent<S>) {
        if self.silent.len() >= MOST_PENDING {
            let _ = self.let_oldest_go();
        }
        let _ = self.silent.push(one);
    }

    // Lets the oldest go, and tells whether there was one.
    fn let_oldest_go(&mut self) -> bool {
        if self.silent.is_empty() {
            return false;
        }
        let _ = self.silent.remove(0);
        true
    }
}

// What poll(2) is asked of a descriptor: whether it has something to read.
fn ask_for(fd: RawFd) -> pollfd {
    pollfd {
        fd,
        events: POLLIN,
        revents: 0,
    }
}
