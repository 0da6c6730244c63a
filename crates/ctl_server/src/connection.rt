//! One turn of a worker.

ghost use Rattle.std.specs.Prelude.{◌≡◌, List, None};
ghost use Rattle.ctl_session.specs.Clock.{timing};
ghost use Rattle.ctl_server.specs.Serving.{Serving};
ghost use Rattle.ctl_server.specs.Worked.{IsWorked};

use crate::WorkerEnd;
use crate::connections::serve_one;
use ctl_desk::desk::Desk;
use resource_profile::{Plain, Steps};
use slurm_io::Failed;
use slurm_net::{Accepted, Clock, Door, Gate};
use std::alloc::Global;

/// Looks for a shutdown and then for a connection, which it serves. It answers why the worker ends, if it does.
pub fn turn<A: Door, D: Desk, C: Clock, G: Gate>(
    alloc: Global,
    door: &mut A,
    desk: &mut D,
    clock: &mut C,
    gate: &mut G,
    steps: &mut Steps<Plain>,
) -> Option<WorkerEnd>
    requires { A.out door.old ≡ None }
    ensures worked { (servings : List Serving)
        × IsWorked (record {
          sessions = A.sessions door.old;
          faults = A.door_faults door.old;
          desk = D.sight desk.old;
          clock = timing (C.course clock.old) (C.moments clock.old);
        }) (record {
          sessions = A.sessions door.new;
          faults = A.door_faults door.new;
          desk = D.sight desk.new;
          clock = timing (C.course clock.new) (C.moments clock.new);
        }) result servings }
    ensures out { A.out door.new ≡ None }
{
    if desk.refresh() {
        return Some(WorkerEnd::Shut);
    }
    match door.accept() {
        Err(Failed) => Some(WorkerEnd::DoorFault),
        Ok(Accepted::Nobody) => {
            clock.rest();
            None
        }
        Ok(Accepted::Came(link)) => serve_one(alloc, door, link, desk, clock, gate, steps),
    }
}
