// The system's TCP on this machine as a host: the edge that is trusted.
ghost use Rattle.std.specs.Prelude.{◌≡◌, vec_len, nat_lt, All, IfOk, None};
ghost use Rattle.std.specs.List.{list_any};
ghost use Rattle.slurm_net.specs.Host.{CountsIf, IsNewDoor};
ghost use Rattle.slurm_net.specs.Untold.{untold_out};

use crate::counting::count_if;
use crate::ready_listener::{PendingSet, pending_set};
use crate::system::{MOST_TRIES, is_interrupted};
use crate::{Host, ListenRefusal, ReadyListener, TcpDoor, TcpLink, TimedStream};
use slurm_io::Failed;
use std::alloc::Global;
use std::net::{Ipv4Addr, Net, OpenListener, SocketAddr};
use std::sync::{Arc, Wait};
use std::time::{Clock, Duration};

/// How many seconds a read or a write of a link that was dialled waits for the other side, at the most (own): longer than
/// a server takes to come to the connection and to answer, where its workers have others to serve.
const LONGEST_WAIT: u64 = 60;

/// This machine's loopback network: doors at 127.0.0.1, and links to there. The doors of one `listen` share one
/// listener and one set of connections that have sent nothing yet (`ReadyListener`). A dial that a signal interrupts
/// (`ErrorKind::Interrupted`) is tried again, up to 1,024 times in all; each other error, and the last interruption, is a
/// fault.
#[derive(Drop)]
pub struct TcpHost<R> {
    pub net: R,
    alloc: Global,
    /// How many calls failed, and how often doors were closed of which one had failed, up to the greatest `u64`.
    pub faults: u64,
    /// How many links were hung up of which a read had failed, up to the greatest `u64`.
    pub link_reads: u64,
    /// How many links were hung up of which a write had failed, up to the greatest `u64`.
    pub link_writes: u64,
}

impl<R> TcpHost<R> {
    pub fn new(alloc: Global, net: R) -> Self
        ensures net { result.net ≡ net }
        ensures faults { result.faults ≡ 0 }
        ensures link_reads { result.link_reads ≡ 0 }
        ensures link_writes { result.link_writes ≡ 0 }
    {
        TcpHost {
            net,
            alloc,
            faults: 0,
            link_reads: 0,
            link_writes: 0,
        }
    }
}

fn loopback(port: u16) -> SocketAddr {
    SocketAddr::from((Ipv4Addr::LOCALHOST, port))
}

/// A door of a host over this runtime.
type HostDoor<R> = TcpDoor<ReadyListener<<R as Net>::Listener, R>, R>;

/// A link of a host over this runtime.
type HostLink<R> = TcpLink<TimedStream<<R as Net>::Stream, R>>;

// A listener that doesn't wait.
fn open_listener<R: Net>(net: &R, port: u16) -> Result<R::Listener, Failed> {
    let Ok(listener) = net.bind(loopback(port)) else {
        return Err(Failed);
    };
    match listener.set_nonblocking(true) {
        Ok(()) => Ok(listener),
        Err(_) => Err(Failed),
    }
}

// A further door over this listener, beside the others of this set.
fn door_over<R: Net + Clock + Wait + Copy>(
    listener: &R::Listener,
    pending: &PendingSet<R::Stream>,
    net: &R,
) -> Result<HostDoor<R>, ListenRefusal>
    ensures new { IfOk result (λ door. IsNewDoor door.faults (untold_out door.is_out) None) }
{
    let Ok(shared) = listener.try_clone() else {
        return Err(ListenRefusal::Failed);
    };
    let ready = ReadyListener::new(shared, Arc::try_clone(pending)?, *net);
    Ok(TcpDoor::new(ready, *net))
}

// So many doors, all over one listener.
fn open_doors<R: Net + Clock + Wait + Copy>(
    alloc: Global,
    net: &R,
    port: u16,
    workers: u32,
) -> Result<Vec<HostDoor<R>>, ListenRefusal>
    ensures doors { IfOk result (λ doors. vec_len doors ≡ workers) }
    ensures new { IfOk result (λ doors. All (λ door. IsNewDoor door.faults (untold_out door.is_out) None) doors.items) }
{
    let mut doors = Vec::with_capacity(alloc, workers as usize)?;
    let pending = pending_set(alloc)?;
    let listener = open_listener(net, port)?;
    for _ in 0..workers {
        let door = door_over(&listener, &pending, net)?;
        doors.push(door).unwrap();
    }
    Ok(doors)
}

// Dials, again where a signal interrupts.
fn dial_through<R: Net + Copy>(net: &R, port: u16) -> Result<HostLink<R>, Failed>
    ensures read_faults { IfOk result (λ link. link.read_faults ≡ 0) }
    ensures write_faults { IfOk result (λ link. link.write_faults ≡ 0) }
{
    for _ in 0..MOST_TRIES {
        match net.connect(loopback(port)) {
            Ok(stream) => {
                let longest = Duration::from_secs(LONGEST_WAIT);
                let timed = TimedStream::new(stream, *net, longest, Duration::MAX);
                return Ok(TcpLink::new(timed));
            }
            Err(error) if is_interrupted(&error) => {}
            Err(_) => return Err(Failed),
        }
    }
    Err(Failed)
}

// Whether a call of one of them failed.
fn any_failed<L, R>(doors: &[TcpDoor<L, R>]) -> bool
    ensures { result ≡ list_any (λ door. nat_lt 0 door.faults) doors.now }
{
    doors.iter().any(|door| door.faults > 0)
}

impl<R: Net + Clock + Wait + Copy> Host for TcpHost<R> {
    type Door = HostDoor<R>;

    ghost hosting = { λ host. record {
      faults = host.faults;
      link_reads = host.link_reads;
      link_writes = host.link_writes;
      next_left = None;
      last_taken = None;
    } };

    ghost closed = { λ host. None };

    fn listen(&mut self, port: u16, workers: u32) -> Result<Vec<HostDoor<R>>, ListenRefusal> {
        match open_doors(self.alloc, &self.net, port, workers) {
            Ok(doors) => Ok(doors),
            Err(ListenRefusal::Memory) => Err(ListenRefusal::Memory),
            Err(ListenRefusal::Failed) => {
                self.faults = self.faults.saturating_add(1);
                Err(ListenRefusal::Failed)
            }
        }
    }

    fn close_doors(&mut self, doors: Vec<HostDoor<R>>)
        ensures faults { CountsIf (list_any (λ door. nat_lt 0 door.faults) doors.items)
            self.old.faults self.new.faults }
        ensures link_reads { self.new.link_reads ≡ self.old.link_reads }
        ensures link_writes { self.new.link_writes ≡ self.old.link_writes }
    {
        self.faults = count_if(any_failed(&doors), self.faults);
    }

    fn dial(&mut self, port: u16) -> Result<HostLink<R>, Failed> {
        match dial_through(&self.net, port) {
            Ok(link) => Ok(link),
            Err(Failed) => {
                self.faults = self.faults.saturating_add(1);
                Err(Failed)
            }
        }
    }

    fn hang_up(&mut self, link: HostLink<R>) {
        self.link_reads = count_if(link.read_faults > 0, self.link_reads);
        self.link_writes = count_if(link.write_faults > 0, self.link_writes);
        link.close();
    }
}
