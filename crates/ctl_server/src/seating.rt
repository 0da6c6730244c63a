//! What the parts of a server begin with.

ghost use Rattle.std.specs.Prelude.{◌≡◌, ◌+◌, ◌≤◌, All, vec_capacity, vec_len};
ghost use Rattle.slurm_net.specs.Host.{IsNewDoor};
ghost use Rattle.ctl_state.specs.State.{State};
ghost use Rattle.ctl_server.specs.Parts.{BeganWith, IsReady, IsSplit, IsStill};

use crate::workers::{Seat, put};
use crate::{BookLock, BookPass};
use slurm_net::{Clock, Door};
use std::sync::Wait;

/// A further pass of the lock, which is asked for again while somebody else is given one.
pub(crate) fn split<R: Wait>(rt: &R, lock: &BookLock, pass: &mut BookPass) -> BookPass
    requires { pass.old.lock ≡ lock.now }
    ensures new { IsSplit pass.old result }
    ensures still { IsStill pass.old pass.new }
{
    for _ in rt.forever() {
        if let Ok(new) = lock.split(pass) {
            return new;
        }
    }
    unreachable!()
}

/// A seat for each of these doors, at the end of the others: a further pass, a clock of the same time, and a gate.
pub(crate) fn seat_all<R: Wait, A: Door + Drop, C: Clock + Drop, G: Drop>(
    rt: &R,
    lock: &BookLock,
    pass: &mut BookPass,
    doors: Vec<A>,
    clock: &C,
    gates: Vec<G>,
    seats: &mut Vec<Seat<A, C, G>>,
)
    requires own { pass.old.lock ≡ lock.now }
    requires none { vec_len seats.old ≡ 0 }
    requires room { vec_len doors ≤ vec_capacity seats.old }
    requires gates { vec_len gates ≡ vec_len doors }
    requires new { All (λ door. IsNewDoor (A.door_faults door) (A.out door) (A.sessions door)) doors.items }
    ensures still { IsStill pass.old pass.new }
    ensures len { vec_len seats.new ≡ vec_len doors }
    ensures ready { (opening : State) → BeganWith opening pass.old
        → All (IsReady lock.now A.out A.door_faults A.sessions C.moments C.course opening (C.course clock.now))
        seats.new.items }
{
    let mut doors = doors;
    let mut gates = gates;
    while let Some(door) = doors.pop() {
        let Some(gate) = gates.pop() else {
            unreachable!()
        };
        let pass = split(rt, lock, pass);
        let clock = clock.twin();
        put(
            seats,
            Seat {
                door,
                pass,
                clock,
                gate,
            },
        );
    }
}
