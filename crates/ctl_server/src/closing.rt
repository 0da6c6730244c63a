//! The end of a server whose parts have returned.

ghost use Rattle.std.specs.Prelude.{◌≡◌, ◌+◌, ◌≤◌, ◌++◌, ◌∷◌, [], All, map, Option, vec_capacity, vec_len};
ghost use Rattle.slurm_net.specs.Course.{Course};
ghost use Rattle.ctl_state.specs.State.{State};
ghost use Rattle.ctl_server.specs.Ends.{EndsServing, end_with};
ghost use Rattle.ctl_server.specs.Parts.{BeganWith, EndBy, HasMet, HasSeenShut, IsBookOf, IsLeft};

use crate::ending::ServeEnd;
use crate::workers::{Worked, gather};
use crate::{BookLock, BookPass, WorkerEnd};
use ctl_desk::book::Book;
use ctl_desk::laws::what_is_shut_stays_shut;
use slurm_net::{Door, Host};
use std::sync::Wait;

// Takes all passes in, those of the workers first; how these ended, taken together.
fn meet_all<A: Drop>(
    lock: &BookLock,
    pass: &mut BookPass,
    worked: Vec<Worked<A>>,
    planner: BookPass,
    reporter: BookPass,
    doors: &mut Vec<A>,
) -> WorkerEnd
    requires own { (pass.old.lock ≡ lock.now) × (planner.lock ≡ lock.now) × (reporter.lock ≡ lock.now) }
    requires all { All (λ one. one.pass.lock ≡ lock.now) worked.items }
    requires room { vec_len doors.old + vec_len worked ≤ vec_capacity doors.old }
    ensures met { HasMet pass.old (map (λ one. one.pass) worked.items ++ planner ∷ reporter ∷ []) pass.new }
    ensures doors { doors.new.items ≡ doors.old.items ++ map (λ one. one.door) worked.items }
    ensures end { EndBy worked.items result }
{
    let end = gather(lock, pass, worked, doors);
    lock.meet(pass, planner);
    lock.meet(pass, reporter);
    end
}

/// Takes the turn, and the book from the lock.
pub(crate) fn take_book<R: Wait>(rt: &R, lock: BookLock, pass: BookPass) -> Book
    requires own { pass.lock ≡ lock }
    ensures { IsBookOf pass result }
{
    let held = lock.enter(rt, pass);
    let _ = held.turn.number();
    lock.finish(held)
}

// How the server ends, by how its workers ended, taken together.
fn end_with(end: WorkerEnd, book: Book) -> ServeEnd
    ensures { result ≡ end_with end book }
{
    match end {
        WorkerEnd::Shut => ServeEnd::Shut(book),
        WorkerEnd::DoorFault => {
            book.let_go();
            ServeEnd::DoorFault
        }
        WorkerEnd::Memory => {
            book.let_go();
            ServeEnd::Memory
        }
    }
}

/// Takes in what the parts left, hands the doors back, and takes the book from the lock.
pub(crate) fn close<R: Wait, H: Host>(
    rt: &R,
    lock: BookLock,
    pass: BookPass,
    worked: Vec<Worked<H::Door>>,
    planner: BookPass,
    reporter: BookPass,
    doors: Vec<H::Door>,
    host: &mut H,
) -> ServeEnd
where
    H::Door: Drop,
    requires own { (pass.lock ≡ lock) × (planner.lock ≡ lock) × (reporter.lock ≡ lock) }
    requires alone { pass.taken ≡ [] }
    requires all { All (λ one. one.pass.lock ≡ lock) worked.items }
    requires none { doors.items ≡ [] }
    requires room { vec_len doors + vec_len worked ≤ vec_capacity doors }
    ensures end { (opening : State) (course : Option Course) → BeganWith opening pass → HasSeenShut opening planner
        → All (IsLeft lock H.Door.door_faults H.Door.sessions opening course) worked.items
        → EndsServing opening course (vec_len worked) result (H.closed host.new)
        (H.hosting host.old).faults (H.hosting host.new).faults }
    ensures counts { ((H.hosting host.new).link_reads ≡ (H.hosting host.old).link_reads)
        × ((H.hosting host.new).link_writes ≡ (H.hosting host.old).link_writes) }
    ensures kept { ((H.hosting host.new).next_left ≡ (H.hosting host.old).next_left)
        × ((H.hosting host.new).last_taken ≡ (H.hosting host.old).last_taken) }
{
    let mut pass = pass;
    let mut doors = doors;
    let end = meet_all(&lock, &mut pass, worked, planner, reporter, &mut doors);
    host.close_doors(doors);
    let book = take_book(rt, lock, pass);
    what_is_shut_stays_shut();
    end_with(end, book)
}
