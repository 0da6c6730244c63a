//! A worker at a door.

ghost use Rattle.std.specs.Prelude.{◌≡◌, List, None};
ghost use Rattle.ctl_desk.specs.Desk.{history_of};
ghost use Rattle.ctl_desk.specs.History.{IsHistory};
ghost use Rattle.ctl_session.specs.Clock.{timing};
ghost use Rattle.ctl_server.specs.Serving.{Serving};
ghost use Rattle.ctl_server.specs.Worked.{IsWorked};

use crate::connection::turn;
use ctl_desk::desk::Desk;
use resource_profile::{Plain, Steps};
use slurm_net::{Clock, Door, Gate};
use std::alloc::Global;
use std::sync::Wait;

/// Why a worker ended (own).
#[derive(Clone, Copy, Debug, PartialEq, Eq)]
pub enum WorkerEnd {
    /// A shutdown was accepted.
    Shut,
    /// The door failed.
    DoorFault,
    /// Want of memory. The history may then have the request of one block that was not answered.
    Memory,
}

/// Serves the connections that come to a door, one after another, until a shutdown is accepted, the door fails or
/// memory is wanting. It looks for a shutdown before it looks for a connection, and rests where none has come. It may
/// wait for ever: it ends by no other cause.
pub fn worker<R: Wait, A: Door, D: Desk, C: Clock, G: Gate>(
    rt: &R,
    alloc: Global,
    door: &mut A,
    desk: &mut D,
    clock: &mut C,
    gate: &mut G,
    steps: &mut Steps<Plain>,
) -> WorkerEnd
    requires { A.out door.old ≡ None }
    ensures worked { (servings : List Serving)
        × IsWorked (record {
          sessions = A.sessions door.old;
          faults = A.door_faults door.old;
          desk = D.sight desk.old;
          clock = timing (C.course clock.old) (C.moments clock.old);
        }) (record {
          sessions = A.sessions door.new;
          faults = A.door_faults door.new;
          desk = D.sight desk.new;
          clock = timing (C.course clock.new) (C.moments clock.new);
        }) (Some result) servings }
    ensures out { A.out door.new ≡ None }
    ensures history { IsHistory (history_of (D.sight desk.new)) }
{
    for _ in rt.forever() {
        if let Some(end) = turn(alloc, door, desk, clock, gate, steps) {
            let _ = desk.seen_len();
            return end;
        }
    }
    unreachable!()
}
