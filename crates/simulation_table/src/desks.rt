// Simulations over one desk and over several.

ghost use Rattle.std.specs.Prelude.{◌≡◌, ◌<◌, [], length, IfSome};

use cluster_opening::simulated_desk;
use ctl_desk::book::Book;
use ctl_server::{BookLock, BookPass, LockedDesk, locked_desk};
use resource_profile::start;
use simulation::generate_run;
use std::alloc::Global;
use std::sync::Wait;
use turn_lock::TurnLock;

/// The line of a simulation at a desk that owns its book.
pub fn run_alone(alloc: Global, number: u32) -> Option<Vec<u8>> {
    let Ok(desk) = simulated_desk(alloc) else {
        return None;
    };
    generate_run(alloc, number, &mut [desk], &mut start()).ok()
}

// The book of a cluster, before any request.
fn new_book(alloc: Global) -> Option<Book>
    ensures { IfSome result (λ book. book.entries ≡ []) }
{
    match simulated_desk(alloc) {
        Ok(desk) => Some(desk.into_book()),
        Err(_) => None,
    }
}

// So many desks of a lock, and one more.
fn locked_desks<'a, R: Wait>(
    rt: &'a R,
    alloc: Global,
    lock: &'a BookLock,
    pass: BookPass,
    others: u32,
) -> Option<Vec<LockedDesk<'a, R>>>
    requires { pass.lock ≡ lock.now }
    ensures { IfSome result (λ desks. 0 < length desks.items) }
{
    let mut pass = pass;
    let mut desks = Vec::new(alloc);
    for _ in 0..others {
        let Ok(other) = lock.split(&mut pass) else {
            return None;
        };
        desks.push(locked_desk(rt, lock, other)).ok()?;
    }
    desks.push(locked_desk(rt, lock, pass)).ok()?;
    Some(desks)
}

/// The line of a simulation over so many desks of one lock and one more, which are asked in turn.
pub fn run_locked<R: Wait>(rt: &R, alloc: Global, number: u32, others: u32) -> Option<Vec<u8>> {
    let book = new_book(alloc)?;
    let Ok((lock, pass)) = TurnLock::new(alloc, book) else {
        return None;
    };
    let mut desks = locked_desks(rt, alloc, &lock, pass, others)?;
    generate_run(alloc, number, desks.as_mut_slice(), &mut start()).ok()
}
