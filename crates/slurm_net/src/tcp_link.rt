// The system's TCP connections as links: the edge that is trusted.
ghost use Rattle.std.specs.Prelude.{◌≡◌, ◌≤◌, length, IfOk, None, refl};
ghost use Rattle.slurm_net.specs.Untold.{untold_wire};

use crate::system::{MOST_TRIES, is_interrupted};
use slurm_io::{Failed, Link, Sink, Source};
use std::io::{ErrorKind, Read, Write};
use std::net::{OpenStream, Shutdown};
use std::time::{Clock, Duration};

/// How often it is looked whether the other side has closed its half of a connection too (own).
const MOST_LOOKS: u32 = 20;

/// How many milliseconds lie between two looks.
const BETWEEN_LOOKS: u64 = 10;

/// How many pieces are read at one look, at the most.
const MOST_PIECES: u32 = 64;

/// A connection. A read or a write waits for the other side as long as the stream lets it. One that a signal interrupts
/// (`ErrorKind::Interrupted`) is tried again, up to 1,024 times in all; each other error, a wait that is over
/// (`ErrorKind::WouldBlock`), the last interruption, and a piece of which no byte is taken, is a fault. The connection is
/// closed where it is dropped.
#[derive(Drop)]
pub struct TcpLink<S> {
    pub stream: S,
    /// How many reads failed, up to the greatest `u64`.
    pub read_faults: u64,
    /// How many writes failed, up to the greatest `u64`.
    pub write_faults: u64,
}

impl<S> TcpLink<S> {
    pub fn new(stream: S) -> Self
        ensures stream { result.stream ≡ stream }
        ensures read_faults { result.read_faults ≡ 0 }
        ensures write_faults { result.write_faults ≡ 0 }
    {
        TcpLink {
            stream,
            read_faults: 0,
            write_faults: 0,
        }
    }
}

impl<S: OpenStream + Drop> TcpLink<S> {
    /// Closes the connection, once what was written is on its way: the other side is told that nothing follows.
    pub(crate) fn close(self) {
        let _ = self.stream.shutdown(Shutdown::Write);
    }
}

impl<S: Read + OpenStream> TcpLink<S> {
    /// Tells the other side that nothing follows, and reads what it has sent and nobody wants, until it has closed its
    /// half too, for a fifth of a second at the most: where bytes are left unread, the system takes back what is on its
    /// way. shutdown(2).
    pub(crate) fn end<R: Clock>(&mut self, runtime: &R) {
        let _ = self.stream.shutdown(Shutdown::Write);
        if self.stream.set_nonblocking(true).is_err() {
            return;
        }
        for _ in 0..MOST_LOOKS {
            if is_at_end(&mut self.stream) {
                return;
            }
            runtime.sleep(Duration::from_millis(BETWEEN_LOOKS));
        }
    }
}

impl<S: Read> Source for TcpLink<S> {
    ghost left = { λ link. None };

    ghost read_faults = { λ link. link.read_faults };

    ghost kept_by_reads = { λ link. record { bytes = None; faults = link.write_faults } };

    fn read(&mut self, into: &mut [u8]) -> Result<usize, Failed> {
        match read_through(&mut self.stream, into) {
            Ok(count) => Ok(count),
            Err(Failed) => {
                self.read_faults = self.read_faults.saturating_add(1);
                Err(Failed)
            }
        }
    }
}

impl<S: Write> Sink for TcpLink<S> {
    ghost taken = { λ link. None };

    ghost write_faults = { λ link. link.write_faults };

    ghost kept_by_writes = { λ link. record { bytes = None; faults = link.read_faults } };

    fn write(&mut self, piece: &[u8]) -> Result<usize, Failed> {
        match write_through(&mut self.stream, piece) {
            Ok(count) if count > 0 || piece.is_empty() => Ok(count),
            _ => {
                self.write_faults = self.write_faults.saturating_add(1);
                Err(Failed)
            }
        }
    }
}

impl<S: Read + Write> Link for TcpLink<S> {
    ghost wire = { λ link. untold_wire link.read_faults link.write_faults };

    ghost wire_tells = { λ link. refl };

    ghost reads_keep = { λ link. refl };

    ghost writes_keep = { λ link. refl };
}

// Reads, again where a signal interrupts.
fn read_through<S: Read>(stream: &mut S, into: &mut [u8]) -> Result<usize, Failed>
    ensures { IfOk result (λ n. n ≤ length into.new) }
{
    for _ in 0..MOST_TRIES {
        match stream.read(into) {
            Ok(count) => return Ok(count),
            Err(error) if is_interrupted(&error) => {}
            Err(_) => return Err(Failed),
        }
    }
    Err(Failed)
}

// Writes, again where a signal interrupts.
fn write_through<S: Write>(stream: &mut S, piece: &[u8]) -> Result<usize, Failed>
    ensures { IfOk result (λ n. n ≤ length piece.now) }
{
    for _ in 0..MOST_TRIES {
        match stream.write(piece) {
            Ok(count) => return Ok(count),
            Err(error) if is_interrupted(&error) => {}
            Err(_) => return Err(Failed),
        }
    }
    Err(Failed)
}

// Reads what a stream that doesn't wait has, and lets it go. Whether nothing more is to be read of it: it ended, a read
// failed, or it has more than a few pieces.
fn is_at_end<S: Read>(stream: &mut S) -> bool {
    let mut piece = [0; 4_096];
    for _ in 0..MOST_PIECES {
        match stream.read(&mut piece) {
            Ok(0) => return true,
            Ok(_) => {}
            Err(error) => return error.kind() != ErrorKind::WouldBlock,
        }
    }
    true
}
