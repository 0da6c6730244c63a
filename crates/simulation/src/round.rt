//! The rounds of a simulation.

ghost use Rattle.std.specs.Prelude.{◌≡◌, ℕ, ◌+◌, ◌<◌, ◌^◌, length, map, All, OnOk};
ghost use Rattle.request_data.specs.declared.request.Request.TheVariants.{Pass};
ghost use Rattle.node_daemon.specs.Daemon.{Daemon};
ghost use Rattle.simulation.specs.Run.{AllGoOn, HaveReported, IfOneAlone, IsShown};
ghost use Rattle.simulation.specs.Simulation.{behind, counted, daemon_behind_turn, daemons_behind_turns, jobs_asked, looked, round, rows_of, state_behind_turn, state_behind_turns, tallied, told};

use crate::asking::{keeps_history, pass, show};
use crate::laws::answers_follow_alone;
use crate::nodes::rows_of;
use crate::rota::Rota;
use crate::tally::Tally;
use ctl_desk::desk::Desk;
use node_daemon::daemon::DaemonState;
use node_daemon::{daemon_turn, root};
use request_data::query::Query;
use resource_profile::{Plain, Steps};
use small_texts::memory_error::Memory;
use std::alloc::Global;

// How many seconds lie between two rounds.
const BETWEEN: u64 = 30;

// One daemon's turn.
fn turn<D: Desk>(
    alloc: Global,
    desks: &mut [D],
    rota: &mut Rota,
    now: u64,
    daemon: &mut DaemonState,
) -> Result<(), Memory>
    requires desks { 0 < length desks.old }
    requires number { daemon.old.number + 1 < 2 ^ 64 }
    ensures go_on { AllGoOn (map D.sight desks.old) (map D.sight desks.new) }
    ensures reported { OnOk result (daemon.new.number ≡ daemon.old.number + 1) }
    ensures alone { OnOk result (IfOneAlone (map D.sight desks.old) (map D.sight desks.new)
        (λ s s'. (s' ≡ state_behind_turn now s daemon.old) × (daemon.new ≡ daemon_behind_turn now s daemon.old))) }
{
    answers_follow_alone();
    let place = rota.take(desks.len());
    let desk = &mut desks[place];
    keeps_history(desk);
    let answer = daemon_turn(alloc, desk, now, daemon)?;
    answer.let_go();
    Ok(())
}

// Each daemon's turn, one after the other.
fn turn_all<D: Desk>(
    alloc: Global,
    desks: &mut [D],
    rota: &mut Rota,
    now: u64,
    daemons: &mut [DaemonState],
) -> Result<(), Memory>
    requires desks { 0 < length desks.old }
    requires numbers { All (λ (daemon : Daemon). daemon.number + 1 < 2 ^ 64) daemons.old }
    ensures go_on { AllGoOn (map D.sight desks.old) (map D.sight desks.new) }
    ensures reported { OnOk result ((n : ℕ) → HaveReported n daemons.old → HaveReported (n + 1) daemons.new) }
    ensures alone { OnOk result (IfOneAlone (map D.sight desks.old) (map D.sight desks.new)
        (λ s s'. (s' ≡ state_behind_turns now s daemons.old)
        × (daemons.new ≡ daemons_behind_turns now s daemons.old))) }
{
    for daemon in daemons.iter_mut() {
        turn(alloc, desks, rota, now, daemon)?;
    }
    Ok(())
}

// A pass.
fn make_pass<D: Desk>(
    alloc: Global,
    desks: &mut [D],
    rota: &mut Rota,
    now: u64,
    steps: &mut Steps<Plain>,
    tally: &mut Tally,
) -> Result<(), Memory>
    requires { 0 < length desks.old }
    ensures go_on { AllGoOn (map D.sight desks.old) (map D.sight desks.new) }
    ensures moment { OnOk result (tally.new.moment ≡ now) }
    ensures alone { OnOk result (IfOneAlone (map D.sight desks.old) (map D.sight desks.new)
        (λ s s'. (s' ≡ behind now Pass s) × (tally.new ≡ tallied now (told now Pass s) tally.old))) }
{
    let root = root(alloc)?;
    let reply = pass(desks, rota, now, &root, steps)?;
    tally.take(now, &reply);
    Ok(())
}

// A look at the jobs.
fn look<D: Desk>(
    alloc: Global,
    desks: &mut [D],
    rota: &mut Rota,
    now: u64,
    tally: &mut Tally,
) -> Result<(), Memory>
    requires { 0 < length desks.old }
    ensures go_on { AllGoOn (map D.sight desks.old) (map D.sight desks.new) }
    ensures moment { OnOk result (tally.new.moment ≡ tally.old.moment) }
    ensures left { OnOk result (IsShown (map D.sight desks.new) now tally.new.left) }
    ensures alone { OnOk result (IfOneAlone (map D.sight desks.old) (map D.sight desks.new)
        (λ s s'. (s' ≡ behind now jobs_asked s)
        × (tally.new ≡ looked (rows_of (told now jobs_asked s)) tally.old))) }
{
    let root = root(alloc)?;
    let reply = show(desks, rota, now, &root, Query::ShowJob(None))?;
    tally.look(rows_of(&reply));
    Ok(())
}

/// A round: half a minute after the last moment each daemon has its turn, a pass follows, and the jobs are looked at,
/// each of these at the next desk. Its cost is that of a report for each node, of a pass, and of a record for each job.
pub(crate) fn make_round<D: Desk>(
    alloc: Global,
    desks: &mut [D],
    rota: &mut Rota,
    steps: &mut Steps<Plain>,
    daemons: &mut [DaemonState],
    tally: &mut Tally,
) -> Result<(), Memory>
    requires desks { 0 < length desks.old }
    requires numbers { All (λ (daemon : Daemon). daemon.number + 1 < 2 ^ 64) daemons.old }
    ensures go_on { AllGoOn (map D.sight desks.old) (map D.sight desks.new) }
    ensures reported { OnOk result ((n : ℕ) → HaveReported n daemons.old → HaveReported (n + 1) daemons.new) }
    ensures moment { OnOk result (tally.new.moment ≡ counted tally.old.moment 30) }
    ensures left { OnOk result (IsShown (map D.sight desks.new) tally.new.moment tally.new.left) }
    ensures alone { OnOk result (IfOneAlone (map D.sight desks.old) (map D.sight desks.new)
        (λ s s'. record { state = s'; daemons = daemons.new; tally = tally.new }
        ≡ round (record { state = s; daemons = daemons.old; tally = tally.old }))) }
{
    let now = tally.moment.saturating_add(BETWEEN);
    turn_all(alloc, desks, rota, now, daemons)?;
    make_pass(alloc, desks, rota, now, steps, tally)?;
    look(alloc, desks, rota, now, tally)?;
    Ok(())
}
