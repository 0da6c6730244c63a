//! One connection.

ghost use Rattle.std.specs.Prelude.{◌≡◌, [], ◌∷◌, Some, None};
ghost use Rattle.slurm_net.specs.Accepted.{IsNewLink};
ghost use Rattle.ctl_session.specs.Clock.{timing};
ghost use Rattle.ctl_server.specs.Cause.{end_by};
ghost use Rattle.ctl_server.specs.Serving.{Serving};
ghost use Rattle.ctl_server.specs.Worked.{IsWorked};

use crate::WorkerEnd;
use block_frame::Form;
use ctl_desk::desk::Desk;
use ctl_session::{Ended, How, serve_link};
use resource_profile::{Plain, Steps};
use slurm_net::{Clock, Cut, Door, Gate, Point};
use std::alloc::Global;

/// Why a worker ends after a session that ended so, if it does.
fn end_after(how: How) -> Option<WorkerEnd>
    ensures { result ≡ end_by how }
{
    match how {
        How::Shut => Some(WorkerEnd::Shut),
        How::Memory => Some(WorkerEnd::Memory),
        _ => None,
    }
}

/// Serves a connection that came to the door, and hands its link back with its cut. It answers why the worker ends with
/// it, if it does.
pub fn serve_one<A: Door, D: Desk, C: Clock, G: Gate>(
    alloc: Global,
    door: &mut A,
    mut link: A::Link,
    desk: &mut D,
    clock: &mut C,
    gate: &mut G,
    steps: &mut Steps<Plain>,
) -> Option<WorkerEnd>
    requires out { A.out door.old ≡ Some (A.Link.wire link) }
    requires fresh { IsNewLink (A.Link.wire link) }
    ensures worked { (serving : Serving)
        × IsWorked (record {
          sessions = A.sessions door.old;
          faults = A.door_faults door.old;
          desk = D.sight desk.old;
          clock = timing (C.course clock.old) (C.moments clock.old);
        }) (record {
          sessions = A.sessions door.new;
          faults = A.door_faults door.new;
          desk = D.sight desk.new;
          clock = timing (C.course clock.new) (C.moments clock.new);
        }) result (serving ∷ []) }
    ensures out { A.out door.new ≡ None }
{
    gate.at(Point::BeforeAnswer);
    let before = desk.seen_len();
    let ended = serve_link(alloc, Form::Framed, &mut link, desk, clock, steps);
    let after = desk.seen_len();
    gate.at(Point::AfterAnswer);
    let Ended {
        how,
        answered,
        readings,
    } = ended;
    door.done(
        link,
        Cut {
            before,
            after,
            answered,
            readings,
        },
    );
    end_after(how)
}
