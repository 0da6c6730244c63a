//! The workers: each serves the connections of one door.

ghost use Rattle.std.specs.Prelude.{◌≡◌, ◌+◌, ◌<◌, ◌≤◌, ◌++◌, ◌∷◌, [], All, IfOk, map, vec_capacity, vec_len, Option};
ghost use Rattle.slurm_net.specs.Course.{Course};
ghost use Rattle.ctl_state.specs.State.{State};
ghost use Rattle.ctl_server.specs.Parts.{AreLeft, CanWork, EndBy, HasMet, IsLeft, IsReady, worse};

use crate::laws::{
    connections_stand_in_histories, doors_keep_what_was_served, entries_stand_within_cuts,
    moments_are_the_first_of_a_course,
};
use crate::{BookLock, BookPass, WorkerEnd, locked_desk, worker};
use resource_profile::start;
use slurm_net::{Clock, Door, Gate};
use small_texts::memory_error::Memory;
use std::alloc::Global;
use std::sync::Wait;
use std::thread::{Threads, map_vec};

/// What a worker begins with.
#[derive(Drop)]
pub(crate) struct Seat<A, C, G> {
    pub door: A,
    pub pass: BookPass,
    pub clock: C,
    pub gate: G,
}

/// What a worker leaves.
#[derive(Drop)]
pub(crate) struct Worked<A> {
    pub door: A,
    pub pass: BookPass,
    pub end: WorkerEnd,
}

// One worker's work.
fn work<R: Wait, A: Door, C: Clock + Drop, G: Gate + Drop>(
    rt: &R,
    alloc: Global,
    lock: &BookLock,
    seat: Seat<A, C, G>,
) -> Worked<A>
    requires { CanWork lock.now A.out seat }
    ensures left { (opening : State) (course : Option Course)
        → IsReady lock.now A.out A.door_faults A.sessions C.moments C.course opening course seat
        → IsLeft lock.now A.door_faults A.sessions opening course result }
{
    let Seat {
        mut door,
        pass,
        mut clock,
        mut gate,
    } = seat;
    let mut desk = locked_desk(rt, lock, pass);
    let end = worker(
        rt,
        alloc,
        &mut door,
        &mut desk,
        &mut clock,
        &mut gate,
        &mut start(),
    );
    let pass = desk.into_pass();
    connections_stand_in_histories();
    entries_stand_within_cuts();
    doors_keep_what_was_served();
    moments_are_the_first_of_a_course();
    Worked { door, pass, end }
}

/// All workers, each in a thread of its own where one can be made.
pub(crate) fn work_all<
    R: Threads + Wait + Sync,
    A: Door + Send + Drop,
    C: Clock + Send + Drop,
    G: Gate + Send + Drop,
>(
    rt: &R,
    alloc: Global,
    lock: &BookLock,
    seats: Vec<Seat<A, C, G>>,
) -> Result<Vec<Worked<A>>, Memory>
where
    A::Link: Send,
    requires { All (CanWork lock.now A.out) seats.items }
    ensures len { IfOk result (λ all. vec_len all ≡ vec_len seats) }
    ensures left { IfOk result (λ all.
        AreLeft lock.now A.out A.door_faults A.sessions C.moments C.course seats.items all.items) }
{
    let part = |seat: Seat<A, C, G>| -> Worked<A>
        requires { CanWork lock.now A.out seat }
        ensures { (opening : State) (course : Option Course)
            → IsReady lock.entry.now A.out A.door_faults A.sessions C.moments C.course opening course seat
            → IsLeft lock.entry.now A.door_faults A.sessions opening course result }
    { work(rt, alloc, lock, seat) };
    let all = map_vec(rt, seats, &part)?;
    Ok(all)
}

/// Puts something behind others, which have room for it.
pub(crate) fn put<T: Drop>(others: &mut Vec<T>, one: T)
    requires { vec_len others.old < vec_capacity others.old }
    ensures items { others.new.items ≡ others.old.items ++ one ∷ [] }
    ensures len { vec_len others.new ≡ vec_len others.old + 1 }
    ensures capacity { vec_capacity others.old ≤ vec_capacity others.new }
{
    others.push(one).unwrap();
}

/// How two workers ended, taken together.
fn worse(one: WorkerEnd, other: WorkerEnd) -> WorkerEnd
    ensures { result ≡ worse one other }
{
    match (one, other) {
        (WorkerEnd::Memory, _) | (_, WorkerEnd::Memory) => WorkerEnd::Memory,
        (WorkerEnd::DoorFault, _) | (_, WorkerEnd::DoorFault) => WorkerEnd::DoorFault,
        (WorkerEnd::Shut, WorkerEnd::Shut) => WorkerEnd::Shut,
    }
}

/// Takes the passes of workers in, and puts their doors to the others; how they ended, taken together.
pub(crate) fn gather<A: Drop>(
    lock: &BookLock,
    pass: &mut BookPass,
    worked: Vec<Worked<A>>,
    doors: &mut Vec<A>,
) -> WorkerEnd
    requires own { pass.old.lock ≡ lock.now }
    requires all { All (λ one. one.pass.lock ≡ lock.now) worked.items }
    requires room { vec_len doors.old + vec_len worked ≤ vec_capacity doors.old }
    ensures met { HasMet pass.old (map (λ one. one.pass) worked.items) pass.new }
    ensures doors { doors.new.items ≡ doors.old.items ++ map (λ one. one.door) worked.items }
    ensures end { EndBy worked.items result }
{
    let mut end = WorkerEnd::Shut;
    for one in worked {
        let Worked {
            door,
            pass: other,
            end: other_end,
        } = one;
        lock.meet(pass, other);
        put(doors, door);
        end = worse(end, other_end);
    }
    end
}
