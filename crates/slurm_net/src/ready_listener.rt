//! Listeners that hand a connection out once its first byte is there.

use crate::TimedStream;
use crate::pending::Pending;
use std::alloc::{AllocError, Global};
use std::io;
use std::io::ErrorKind;
use std::net::{OpenListener, SocketAddr};
use std::os::fd::AsRawFd;
use std::sync::{Arc, Mutex, Wait};
use std::time::{Clock, Duration};

/// How many seconds a call of `accept` waits for somebody (own).
const LONGEST_LOOK: u64 = 1;

/// How many seconds it waits where it had to wait for its turn (own): longer, so that those who began together don't
/// end together, and one of them looks while another rests.
const LONGEST_TURN: u64 = 2;

/// How many seconds a read or a write of a connection that came waits for the other side, at the most (own). One that stops
/// in the middle holds a worker for no longer than that.
const LONGEST_WAIT: u64 = 10;

/// How many seconds the reads of one request wait in all, and the writes of its answer (own).
const LONGEST_REQUEST: u64 = 30;

/// How often one call looks anew.
const MOST_LOOKS: u32 = 1 << 20;

/// How many milliseconds lie between two looks where the system can't wait.
const BETWEEN_LOOKS: u64 = 10;

/// A listener that hands a connection out once its first byte is there, or its end: one that sends nothing waits in a set,
/// and holds nobody up. Where nobody has come in time, that is `ErrorKind::WouldBlock`. The listener within doesn't wait
/// (`set_nonblocking`). Those of one set take turns: one looks, the others wait for it. So a connection that was taken in
/// by one is handed out by whichever looks when its first byte comes.
#[derive(Drop)]
pub struct ReadyListener<L: OpenListener, R: Wait> {
    listener: L,
    pending: Arc<Mutex<Pending<L::Stream>>>,
    runtime: R,
}

/// What a listener's connections are taken in to.
pub(crate) type PendingSet<S> = Arc<Mutex<Pending<S>>>;

/// An empty set.
pub(crate) fn pending_set<S: AsRawFd + Drop>(alloc: Global) -> Result<PendingSet<S>, AllocError> {
    let pending = Arc::new(alloc, Mutex::new(Pending::new(alloc)?))?;
    Ok(pending)
}

impl<L: OpenListener, R: Wait> ReadyListener<L, R> {
    /// A listener over this one, which doesn't wait, beside the others of this set.
    pub(crate) fn new(listener: L, pending: PendingSet<L::Stream>, runtime: R) -> Self {
        ReadyListener {
            listener,
            pending,
            runtime,
        }
    }
}

impl<L: OpenListener + AsRawFd, R: Clock + Wait + Copy + Drop> OpenListener for ReadyListener<L, R>
where
    L::Stream: AsRawFd,
{
    type Stream = TimedStream<L::Stream, R>;

    fn accept(&self) -> io::Result<(TimedStream<L::Stream, R>, SocketAddr)> {
        let (stream, from) = self.take_turn()?;
        let longest = Duration::from_secs(LONGEST_WAIT);
        let whole = Duration::from_secs(LONGEST_REQUEST);
        Ok((TimedStream::new(stream, self.runtime, longest, whole), from))
    }

    fn local_addr(&self) -> io::Result<SocketAddr> {
        self.listener.local_addr()
    }
}

impl<L: OpenListener + AsRawFd, R: Clock + Wait> ReadyListener<L, R>
where
    L::Stream: AsRawFd,
{
    // Looks for a connection, once it is its turn.
    fn take_turn(&self) -> io::Result<(L::Stream, SocketAddr)> {
        let began = self.runtime.monotonic()?;
        let (mut pending, longest) = match self.pending.try_lock() {
            Some(pending) => (pending, LONGEST_LOOK),
            None => (self.pending.lock(&self.runtime), LONGEST_TURN),
        };
        look(
            &mut pending,
            &self.listener,
            &self.runtime,
            began.saturating_add(Duration::from_secs(longest)),
        )
    }
}

// Looks for a connection that has something to read until then.
fn look<L: OpenListener + AsRawFd, R: Clock>(
    pending: &mut Pending<L::Stream>,
    listener: &L,
    runtime: &R,
    until: Duration,
) -> io::Result<(L::Stream, SocketAddr)>
where
    L::Stream: AsRawFd,
{
    for _ in 0..MOST_LOOKS {
        let now = runtime.monotonic()?;
        pending.let_old_go(now);
        pending.take_in(listener, now)?;
        let left = until.saturating_sub(now);
        if !pending.wait(listener.as_raw_fd(), left) {
            runtime.sleep(Duration::from_millis(BETWEEN_LOOKS));
        }
        if let Some(came) = pending.take_ready() {
            return Ok(came);
        }
        if left.is_zero() {
            break;
        }
    }
    Err(ErrorKind::WouldBlock.into())
}
