// The system's TCP listeners as doors: the edge that is trusted.
ghost use Rattle.std.specs.Prelude.{◌≡◌, None, false};
ghost use Rattle.slurm_net.specs.Accepted.{IfCame};
ghost use Rattle.slurm_net.specs.Untold.{untold_out};

use crate::system::{MOST_TRIES, is_broken, is_interrupted};
use crate::{Accepted, Cut, Door, TcpLink};
use slurm_io::Failed;
use std::io::{ErrorKind, Read, Write};
use std::net::{OpenListener, OpenStream};
use std::time::{Clock, Duration};

/// How many seconds a door waits where its listener couldn't tell whether somebody came (own).
const USUAL_WAIT: u64 = 2;

/// A door of this machine. Its listener waits until somebody comes, as a `ReadyListener` does, and tells by
/// `ErrorKind::WouldBlock` that nobody came in time. A call that a signal interrupts is tried again, up to 1,024 times. A
/// listener that is none any more is a fault (EBADF, EINVAL and ENOTSOCK of accept(2)); after each other error, as where
/// there are too many open files, nobody has come, two seconds later. The runtime is what it waits by, such as a
/// `&HostRuntime`.
#[derive(Drop)]
pub struct TcpDoor<L, R> {
    pub listener: L,
    pub runtime: R,
    /// How many calls of `accept` failed, up to the greatest `u64`.
    pub faults: u64,
    /// Whether a link came that wasn't handed back.
    pub is_out: bool,
}

impl<L, R> TcpDoor<L, R> {
    pub fn new(listener: L, runtime: R) -> Self
        ensures listener { result.listener ≡ listener }
        ensures runtime { result.runtime ≡ runtime }
        ensures faults { result.faults ≡ 0 }
        ensures is_out { result.is_out ≡ false }
    {
        TcpDoor {
            listener,
            runtime,
            faults: 0,
            is_out: false,
        }
    }
}

impl<L: OpenListener, R: Clock> Door for TcpDoor<L, R>
where
    L::Stream: Read + Write + OpenStream,
{
    type Link = TcpLink<L::Stream>;

    ghost door_faults = { λ door. door.faults };

    ghost sessions = { λ door. None };

    ghost out = { λ door. untold_out door.is_out };

    fn accept(&mut self) -> Result<Accepted<TcpLink<L::Stream>>, Failed> {
        match accept_through(&self.listener, &self.runtime) {
            Ok(Accepted::Came(link)) => {
                self.is_out = true;
                Ok(Accepted::Came(link))
            }
            Ok(Accepted::Nobody) => Ok(Accepted::Nobody),
            Err(Failed) => {
                self.faults = self.faults.saturating_add(1);
                Err(Failed)
            }
        }
    }

    fn done(&mut self, link: TcpLink<L::Stream>, _cut: Cut) {
        let mut link = link;
        link.end(&self.runtime);
        self.is_out = false;
    }
}

// Accepts, again where a signal interrupts. Nobody has come where it tells of an error but is a listener still.
fn accept_through<L: OpenListener, R: Clock>(
    listener: &L,
    runtime: &R,
) -> Result<Accepted<TcpLink<L::Stream>>, Failed>
    ensures read_faults { IfCame result (λ link. link.read_faults ≡ 0) }
    ensures write_faults { IfCame result (λ link. link.write_faults ≡ 0) }
{
    for _ in 0..MOST_TRIES {
        match listener.accept() {
            Ok((stream, _)) => return Ok(Accepted::Came(TcpLink::new(stream))),
            Err(error) if is_interrupted(&error) => {}
            Err(error) if is_broken(&error) => return Err(Failed),
            Err(error) if error.kind() == ErrorKind::WouldBlock => return Ok(Accepted::Nobody),
            Err(_) => {
                runtime.sleep(Duration::from_secs(USUAL_WAIT));
                return Ok(Accepted::Nobody);
            }
        }
    }
    Ok(Accepted::Nobody)
}
