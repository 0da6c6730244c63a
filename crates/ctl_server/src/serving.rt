//! A server, from its doors' opening to its shutdown.

ghost use Rattle.std.specs.Prelude.{◌≡◌, ◌+◌, ◌≤◌, [], length, vec_capacity, vec_len, All, IfSome, IfOk, IfErr, OnOk, true};
ghost use Rattle.std.specs.Io.KnownBytes.{Appends};
ghost use Rattle.slurm_io.specs.Faults.{CountsOne};
ghost use Rattle.slurm_net.specs.Host.{IsNewDoor};
ghost use Rattle.ctl_state.specs.State.{State};
ghost use Rattle.ctl_desk.specs.History.{history_in, present};
ghost use Rattle.ctl_server.specs.declared.ending.ServeEnd.TheVariants.{DoorFault};
ghost use Rattle.ctl_server.specs.Ends.{EndsServing, IfShut, IsUnopened, Writes};
ghost use Rattle.ctl_server.specs.Line.{serving_line};
ghost use Rattle.ctl_server.specs.Numbered.{AreServed};
ghost use Rattle.ctl_server.specs.Parts.{BeganWith};
ghost use Rattle.ctl_server.specs.Prepared.{HasRooms, IsLocked};

use crate::beside::{Planner, Reporter};
use crate::closing::{close, take_book};
use crate::ending::ServeEnd;
use crate::line::serving_line;
use crate::opening::{Pace, pace_of};
use crate::running::run_parts;
use crate::seating::{seat_all, split};
use crate::workers::Seat;
use crate::{BookLock, BookPass};
use ctl_desk::book::Book;
use slurm_io::{Failed, Sink, write_all};
use slurm_net::{Clock, Door, Gate, Host, ListenRefusal};
use small_texts::memory_error::Memory;
use std::alloc::Global;
use std::sync::Wait;
use std::thread::Threads;
use turn_lock::TurnLock;

// Room for the parts' beginnings, and for the doors in the end.
#[derive(Drop)]
struct Rooms<A, C, G> {
    seats: Vec<Seat<A, C, G>>,
    room: Vec<A>,
}

// What is made before the doors are opened: the rooms, the lock, and what the parts take of the settings. Nobody lets go
// of a lock: the book is taken out of it.
struct Prepared<A, C, G> {
    lock: BookLock,
    pass: BookPass,
    pace: Pace,
    rooms: Rooms<A, C, G>,
}

// Rooms for so many workers.
fn rooms_for<A: Drop, C: Drop, G: Drop>(
    alloc: Global,
    workers: u32,
) -> Result<Rooms<A, C, G>, Memory>
    ensures { IfOk result (HasRooms workers) }
{
    let seats = Vec::with_capacity(alloc, workers as usize)?;
    let room = Vec::with_capacity(alloc, workers as usize)?;
    Ok(Rooms { seats, room })
}

// What is made before the lock: what the parts take of the settings, and the rooms.
#[derive(Drop)]
struct Beginnings<A, C, G> {
    pace: Pace,
    rooms: Rooms<A, C, G>,
}

// Makes that for so many workers at this book.
fn beginnings_for<A: Drop, C: Drop, G: Drop>(
    alloc: Global,
    book: &Book,
    workers: u32,
) -> Result<Beginnings<A, C, G>, Memory>
    ensures { IfOk result (λ made. HasRooms workers made.rooms) }
{
    let pace = pace_of(alloc, book)?;
    match rooms_for(alloc, workers) {
        Ok(rooms) => Ok(Beginnings { pace, rooms }),
        Err(Memory) => {
            pace.let_go();
            Err(Memory)
        }
    }
}

// The same beside this book, which goes on, or is let go where memory is wanting.
fn begun<A: Drop, C: Drop, G: Drop>(
    alloc: Global,
    book: Book,
    workers: u32,
) -> Result<(Beginnings<A, C, G>, Book), Memory>
    ensures rooms { IfOk result (λ made. HasRooms workers made.0.rooms) }
    ensures book { IfOk result (λ made. made.1 ≡ book) }
{
    match beginnings_for(alloc, &book, workers) {
        Ok(beginnings) => Ok((beginnings, book)),
        Err(Memory) => {
            book.let_go();
            Err(Memory)
        }
    }
}

// Lets go of what was made where there is no lock.
fn let_beginnings_go<A: Drop, C: Drop, G: Drop>(_beginnings: Beginnings<A, C, G>) {}

// Makes all that takes memory: what is small first, so that of all that is made the lock comes last.
fn prepare<A: Drop, C: Drop, G: Drop>(
    alloc: Global,
    book: Book,
    workers: u32,
) -> Result<Prepared<A, C, G>, Memory>
    requires fresh { book.entries ≡ [] }
    ensures lock { IfOk result (λ made. IsLocked book made) }
    ensures rooms { IfOk result (λ made. HasRooms workers made.rooms) }
{
    let (beginnings, book) = begun(alloc, book, workers)?;
    match TurnLock::new(alloc, book) {
        Ok((lock, pass)) => {
            let Beginnings { pace, rooms } = beginnings;
            Ok(Prepared {
                lock,
                pass,
                pace,
                rooms,
            })
        }
        Err(_) => {
            let_beginnings_go(beginnings);
            Err(Memory)
        }
    }
}

// Lets go of what was made where the doors weren't opened.
fn let_prepared_go<R: Wait, A: Drop, C: Drop, G: Drop>(
    rt: &R,
    prepared: Prepared<A, C, G>,
    _gates: Vec<G>,
)
    requires { prepared.pass.lock ≡ prepared.lock }
{
    let Prepared {
        lock,
        pass,
        pace,
        rooms,
    } = prepared;
    take_book(rt, lock, pass).let_go();
    let_beginnings_go(Beginnings { pace, rooms });
}

// Opens the doors, and writes the line; where that fails the doors are closed again.
fn open_doors<H: Host, K: Sink>(
    host: &mut H,
    output: &mut K,
    port: u16,
    workers: u32,
) -> Result<Vec<H::Door>, ServeEnd>
    ensures doors { IfOk result (λ doors. (vec_len doors ≡ workers) × All
        (λ door. IsNewDoor (H.Door.door_faults door) (H.Door.out door) (H.Door.sessions door)) doors.items) }
    ensures written { IfOk result (λ _. Appends (K.taken output.old) (K.taken output.new) (serving_line port)) }
    ensures unfailed { IfOk result (λ _. K.write_faults output.new ≡ K.write_faults output.old) }
    ensures err { IfErr result (λ end. IsUnopened end (K.taken output.old) (K.taken output.new)
        (K.write_faults output.old) (K.write_faults output.new) (H.hosting host.old).faults (H.hosting host.new).faults
        (serving_line port)) }
    ensures faults { OnOk result ((H.hosting host.new).faults ≡ (H.hosting host.old).faults) }
    ensures counts { ((H.hosting host.new).link_reads ≡ (H.hosting host.old).link_reads)
        × ((H.hosting host.new).link_writes ≡ (H.hosting host.old).link_writes) }
    ensures kept { ((H.hosting host.new).next_left ≡ (H.hosting host.old).next_left)
        × ((H.hosting host.new).last_taken ≡ (H.hosting host.old).last_taken) }
    ensures beside { K.kept_by_writes output.new ≡ K.kept_by_writes output.old }
{
    let doors = match host.listen(port, workers) {
        Ok(doors) => doors,
        Err(ListenRefusal::Failed) => return Err(ServeEnd::DoorFault),
        Err(ListenRefusal::Memory) => return Err(ServeEnd::Memory),
    };
    match write_all(output, serving_line(port).as_bytes()) {
        Ok(()) => Ok(doors),
        Err(Failed) => {
            host.close_doors(doors);
            Err(ServeEnd::WriteFault)
        }
    }
}

// Lets go of what is left where what the workers left is lost.
fn let_all_go<R: Wait, A: Drop>(
    rt: &R,
    lock: BookLock,
    pass: BookPass,
    _planner: BookPass,
    _reporter: BookPass,
    _room: Vec<A>,
)
    requires { pass.lock ≡ lock }
{
    take_book(rt, lock, pass).let_go();
}

// Runs the parts at these doors, and ends them.
fn serve_doors<R: Threads + Wait + Sync, H: Host, C: Clock + Send + Drop, G: Gate + Send + Drop>(
    rt: &R,
    alloc: Global,
    prepared: Prepared<H::Door, C, G>,
    doors: Vec<H::Door>,
    host: &mut H,
    clock: &C,
    gates: Vec<G>,
) -> ServeEnd
where
    H::Door: Send + Drop,
    <H::Door as Door>::Link: Send,
    requires lock { prepared.pass.lock ≡ prepared.lock }
    requires began { (opening : State) × BeganWith opening prepared.pass }
    requires alone { prepared.pass.taken ≡ [] }
    requires rooms { HasRooms (vec_len doors) prepared.rooms }
    requires gates { vec_len gates ≡ vec_len doors + 1 }
    requires new { All (λ door. IsNewDoor (H.Door.door_faults door) (H.Door.out door) (H.Door.sessions door))
        doors.items }
    ensures end { (opening : State) → BeganWith opening prepared.pass → EndsServing opening (C.course clock.now)
        (vec_len doors) result (H.closed host.new) (H.hosting host.old).faults (H.hosting host.new).faults }
    ensures counts { ((H.hosting host.new).link_reads ≡ (H.hosting host.old).link_reads)
        × ((H.hosting host.new).link_writes ≡ (H.hosting host.old).link_writes) }
    ensures kept { ((H.hosting host.new).next_left ≡ (H.hosting host.old).next_left)
        × ((H.hosting host.new).last_taken ≡ (H.hosting host.old).last_taken) }
{
    let Prepared {
        lock,
        mut pass,
        pace,
        rooms,
    } = prepared;
    let Rooms { mut seats, room } = rooms;
    let mut gates = gates;
    let Some(gate) = gates.pop() else {
        unreachable!()
    };
    let planner = Planner {
        pass: split(rt, &lock, &mut pass),
        clock: clock.twin(),
        gate,
        interval: pace.interval,
    };
    let reporter = Reporter {
        pass: split(rt, &lock, &mut pass),
        clock: clock.twin(),
        rests: pace.rests,
        daemons: pace.daemons,
    };
    seat_all(rt, &lock, &mut pass, doors, clock, gates, &mut seats);
    let (worked, (planner, reporter)) = run_parts(rt, alloc, &lock, seats, planner, reporter);
    match worked {
        Ok(worked) => close(rt, lock, pass, worked, planner, reporter, room, host),
        Err(Memory) => {
            let_all_go(rt, lock, pass, planner, reporter, room);
            ServeEnd::Memory
        }
    }
}

/// Serves a cluster at a port, from this book on, until a shutdown is accepted: so many workers, each at a door of its
/// own, a planner and the nodes' daemons are the parts of one fork and join, and take turns at the book. The line that
/// tells of the port is written once the doors are open, and they are closed again in the end. The gates are those of the
/// workers, in order, and then the planner's. slurmctld(8).
///
/// Where a worker ended for want of memory or because its door failed, the server still waits for a shutdown, and tells
/// of that in the end. Where no thread can be made, parts run one after another.
pub fn serve<
    R: Threads + Wait + Sync,
    H: Host,
    K: Sink,
    C: Clock + Send + Drop,
    G: Gate + Send + Drop,
>(
    rt: &R,
    alloc: Global,
    book: Book,
    port: u16,
    workers: u32,
    host: &mut H,
    output: &mut K,
    clock: &mut C,
    gates: Vec<G>,
) -> ServeEnd
where
    H::Door: Send + Drop,
    <H::Door as Door>::Link: Send,
    requires fresh { book.entries ≡ [] }
    requires workers { (1 ≤ workers) × (workers ≤ 64) }
    requires gates { vec_len gates ≡ workers + 1 }
    ensures opening { IfShut result (λ end. end.opening ≡ book.opening) }
    ensures shut { IfShut result (λ end. (present (history_in end)).is_shut ≡ true) }
    ensures doors { IfShut result (λ end. IfSome (H.closed host.new) (λ lists. length lists ≡ workers)) }
    ensures served { IfShut result (λ end. IfSome (H.closed host.new)
        (λ lists. AreServed (C.course clock.old) end lists)) }
    ensures written { Writes result (K.taken output.old) (K.taken output.new)
        (K.write_faults output.old) (K.write_faults output.new) (serving_line port) }
    ensures unfailed { IfShut result (λ _. (H.hosting host.new).faults ≡ (H.hosting host.old).faults) }
    ensures door_fault { result ≡ DoorFault → CountsOne (H.hosting host.old).faults (H.hosting host.new).faults }
    ensures counts { ((H.hosting host.new).link_reads ≡ (H.hosting host.old).link_reads)
        × ((H.hosting host.new).link_writes ≡ (H.hosting host.old).link_writes) }
    ensures clock { clock.new ≡ clock.old }
    ensures kept { ((H.hosting host.new).next_left ≡ (H.hosting host.old).next_left)
        × ((H.hosting host.new).last_taken ≡ (H.hosting host.old).last_taken) }
    ensures beside { K.kept_by_writes output.new ≡ K.kept_by_writes output.old }
{
    let Ok(prepared) = prepare(alloc, book, workers) else {
        return ServeEnd::Memory;
    };
    match open_doors(host, output, port, workers) {
        Ok(doors) => serve_doors(rt, alloc, prepared, doors, host, clock, gates),
        Err(end) => {
            let_prepared_go(rt, prepared, gates);
            end
        }
    }
}
