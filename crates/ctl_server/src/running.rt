//! All parts of a server, as one fork and join.

ghost use Rattle.std.specs.Prelude.{◌≡◌, All, IfOk, vec_len};
ghost use Rattle.ctl_state.specs.State.{State};
ghost use Rattle.ctl_server.specs.Parts.{AreLeft, BeganWith, CanWork, HasSeenShut};

use crate::beside::{Planner, Reporter, run_beside};
use crate::workers::{Seat, Worked, work_all};
use crate::{BookLock, BookPass};
use slurm_net::{Clock, Door, Gate};
use small_texts::memory_error::Memory;
use std::alloc::Global;
use std::sync::Wait;
use std::thread::{Threads, join};

/// The workers, and beside them the planner and the daemons' part: what the workers left, and the two other passes.
pub(crate) fn run_parts<
    R: Threads + Wait + Sync,
    A: Door + Send + Drop,
    C: Clock + Send + Drop,
    G: Gate + Send + Drop,
>(
    rt: &R,
    alloc: Global,
    lock: &BookLock,
    seats: Vec<Seat<A, C, G>>,
    planner: Planner<C, G>,
    reporter: Reporter<C>,
) -> (Result<Vec<Worked<A>>, Memory>, (BookPass, BookPass))
where
    A::Link: Send,
    requires all { All (CanWork lock.now A.out) seats.items }
    requires own { (planner.pass.lock ≡ lock.now) × (reporter.pass.lock ≡ lock.now) }
    ensures len { IfOk result.0 (λ all. vec_len all ≡ vec_len seats) }
    ensures left { IfOk result.0 (λ all.
        AreLeft lock.now A.out A.door_faults A.sessions C.moments C.course seats.items all.items) }
    ensures own { (result.1.0.lock ≡ lock.now) × (result.1.1.lock ≡ lock.now) }
    ensures shut { (opening : State) → BeganWith opening planner.pass → HasSeenShut opening result.1.0 }
{
    join(
        rt,
        || -> Result<Vec<Worked<A>>, Memory>
            requires { All (CanWork lock.now A.out) seats.items }
            ensures len { IfOk result (λ all. vec_len all ≡ vec_len seats) }
            ensures left { IfOk result (λ all. AreLeft lock.entry.now A.out A.door_faults A.sessions
                C.moments C.course seats.items all.items) }
        { work_all(rt, alloc, lock, seats) },
        || -> (BookPass, BookPass)
            requires { (planner.pass.lock ≡ lock.now) × (reporter.pass.lock ≡ lock.now) }
            ensures own { (result.0.lock ≡ lock.entry.now) × (result.1.lock ≡ lock.entry.now) }
            ensures shut { (opening : State) → BeganWith opening planner.pass → HasSeenShut opening result.0 }
        { run_beside(rt, alloc, lock, planner, reporter) },
    )
}
