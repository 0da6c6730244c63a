//! The planner's part and the daemons' part, each at a desk of its own.

ghost use Rattle.std.specs.Prelude.{◌≡◌};
ghost use Rattle.ctl_state.specs.State.{State};
ghost use Rattle.ctl_server.specs.Parts.{BeganWith, HasSeenShut};

use crate::daemons::turn_daemons;
use crate::{BookLock, BookPass, locked_desk, planner_part};
use node_daemon::daemon::DaemonState;
use slurm_net::{Clock, Gate};
use std::alloc::Global;
use std::sync::Wait;
use std::thread::{Threads, join};

/// What the planner begins with.
#[derive(Drop)]
pub(crate) struct Planner<C, G> {
    pub pass: BookPass,
    pub clock: C,
    pub gate: G,
    /// In seconds.
    pub interval: u32,
}

/// What the daemons' part begins with.
#[derive(Drop)]
pub(crate) struct Reporter<C> {
    pub pass: BookPass,
    pub clock: C,
    /// How often it rests between two rounds.
    pub rests: u64,
    pub daemons: Vec<DaemonState>,
}

// Plans beside the workers until a shutdown was accepted.
fn plan<R: Wait, C: Clock + Drop, G: Gate + Drop>(
    rt: &R,
    alloc: Global,
    lock: &BookLock,
    planner: Planner<C, G>,
) -> BookPass
    requires own { planner.pass.lock ≡ lock.now }
    ensures own { result.lock ≡ lock.now }
    ensures shut { (opening : State) → BeganWith opening planner.pass → HasSeenShut opening result }
{
    let Planner {
        pass,
        mut clock,
        mut gate,
        interval,
    } = planner;
    let mut desk = locked_desk(rt, lock, pass);
    planner_part(rt, alloc, &mut desk, &mut clock, interval, &mut gate);
    desk.into_pass()
}

// Lets the nodes' daemons report until a shutdown was accepted.
fn report<R: Wait, C: Clock + Drop>(
    rt: &R,
    alloc: Global,
    lock: &BookLock,
    reporter: Reporter<C>,
) -> BookPass
    requires own { reporter.pass.lock ≡ lock.now }
    ensures own { result.lock ≡ lock.now }
{
    let Reporter {
        pass,
        mut clock,
        rests,
        mut daemons,
    } = reporter;
    let mut desk = locked_desk(rt, lock, pass);
    turn_daemons(
        rt,
        alloc,
        &mut desk,
        &mut clock,
        rests,
        daemons.as_mut_slice(),
    );
    desk.into_pass()
}

/// The planner's part and the daemons' part, each in a thread of its own where one can be made: the two passes.
pub(crate) fn run_beside<R: Threads + Wait + Sync, C: Clock + Send + Drop, G: Gate + Send + Drop>(
    rt: &R,
    alloc: Global,
    lock: &BookLock,
    planner: Planner<C, G>,
    reporter: Reporter<C>,
) -> (BookPass, BookPass)
    requires own { (planner.pass.lock ≡ lock.now) × (reporter.pass.lock ≡ lock.now) }
    ensures own { (result.0.lock ≡ lock.now) × (result.1.lock ≡ lock.now) }
    ensures shut { (opening : State) → BeganWith opening planner.pass → HasSeenShut opening result.0 }
{
    join(
        rt,
        || -> BookPass
            requires { planner.pass.lock ≡ lock.now }
            ensures own { result.lock ≡ lock.entry.now }
            ensures shut { (opening : State) → BeganWith opening planner.pass → HasSeenShut opening result }
        { plan(rt, alloc, lock, planner) },
        || -> BookPass
            requires { reporter.pass.lock ≡ lock.now }
            ensures { result.lock ≡ lock.entry.now }
        { report(rt, alloc, lock, reporter) },
    )
}
