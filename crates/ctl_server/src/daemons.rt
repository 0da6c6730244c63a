//! The turns of the nodes' daemons, round after round.

ghost use Rattle.std.specs.Prelude.{◌≡◌, ◌+◌, ◌<◌, ◌^◌, ◌++◌, IfOk, OnOk, OnErr, true, false};
ghost use Rattle.std.specs.Bool.{OnFalse, OnTrue};
ghost use Rattle.std.specs.Option.{option_to_list};
ghost use Rattle.ctl_desk.specs.Desk.{GoesOn, history_of};
ghost use Rattle.ctl_desk.specs.History.{present};
ghost use Rattle.node_daemon.specs.Turn.{IsCutTurn};
ghost use Rattle.ctl_server.specs.Daemons.{HasTurned, daemon_of, daemons_of, next_boot, rests_of};

use ctl_desk::desk::Desk;
use node_daemon::daemon::DaemonState;
use node_daemon::daemon_turn;
use node_state::record::NodeRecord;
use slurm_net::Clock;
use small_texts::memory_error::Memory;
use std::alloc::Global;
use std::sync::Wait;

/// For so many seconds of SlurmdTimeout a round is followed by one rest (own).
const SECONDS_A_REST: u64 = 30;

// The boot number with which the daemon of a node begins: 1, or one above that of its last report. There is none above
// the last.
fn next_boot(node: &NodeRecord) -> Option<u64>
    ensures { result ≡ next_boot node.now.heard }
{
    match node.heard {
        Some(heard) => heard.boot.checked_add(1),
        None => Some(1),
    }
}

// The daemon of a node as the server begins, if there is a boot number for it.
fn daemon_of(alloc: Global, node: &NodeRecord) -> Result<Option<DaemonState>, Memory>
    ensures { IfOk result (λ daemon. daemon ≡ daemon_of node.now) }
{
    match next_boot(node) {
        Some(boot) => {
            let daemon = DaemonState::new(alloc, &node.conf.name, boot)?;
            Ok(Some(daemon))
        }
        None => Ok(None),
    }
}

// Adds what there is.
fn push_found(daemons: &mut Vec<DaemonState>, found: Option<DaemonState>) -> Result<(), Memory>
    ensures { OnOk result (daemons.new.items ≡ daemons.old.items ++ option_to_list found) }
{
    if let Some(daemon) = found {
        daemons.push(daemon)?;
    }
    Ok(())
}

/// The daemons of these nodes as they are when the server begins: they run nothing. A node without a further boot number
/// has none.
pub(crate) fn start_daemons(alloc: Global, nodes: &[NodeRecord]) -> Result<Vec<DaemonState>, Memory>
    ensures { IfOk result (λ daemons. daemons.items ≡ daemons_of nodes.now) }
{
    let mut daemons = Vec::with_capacity(alloc, nodes.len())?;
    for node in nodes {
        push_found(&mut daemons, daemon_of(alloc, node)?)?;
    }
    Ok(daemons)
}

// One daemon's turn. A daemon that has no numbers for reports left is passed over.
fn turn<D: Desk>(
    alloc: Global,
    desk: &mut D,
    now: u64,
    daemon: &mut DaemonState,
) -> Result<(), Memory>
    ensures goes_on { GoesOn (D.sight desk.old) (D.sight desk.new) }
    ensures turned { OnOk result (daemon.old.number + 1 < 2 ^ 64
        → HasTurned now daemon.old daemon.new (D.sight desk.old) (D.sight desk.new)) }
    ensures cut { OnErr result (IsCutTurn now daemon.old daemon.new (D.sight desk.old) (D.sight desk.new)) }
{
    if daemon.can_report() {
        let answer = daemon_turn(alloc, desk, now, daemon)?;
        answer.let_go();
    }
    Ok(())
}

// Each daemon's turn, one after the other; one for whose turn memory is wanting is passed over.
fn turn_all<D: Desk>(alloc: Global, desk: &mut D, now: u64, daemons: &mut [DaemonState])
    ensures { GoesOn (D.sight desk.old) (D.sight desk.new) }
{
    for daemon in daemons.iter_mut() {
        let _ = turn(alloc, desk, now, daemon);
    }
}

// Rests so often; ends at once where a shutdown was accepted, and says whether one was.
fn rest<D: Desk, C: Clock>(desk: &mut D, clock: &mut C, rests: u64) -> bool
    ensures goes_on { GoesOn (D.sight desk.old) (D.sight desk.new) }
    ensures shut { OnTrue result ((present (history_of (D.sight desk.new))).is_shut ≡ true) }
{
    for _ in 0..rests {
        clock.rest();
        if desk.refresh() {
            return true;
        }
    }
    false
}

/// How often the daemons' part rests between two rounds, where nodes fall silent after so many seconds: once for each
/// half a minute of these, and at least once.
pub(crate) fn rests_for(slurmd_timeout: u64) -> u64
    ensures { result ≡ rests_of slurmd_timeout }
{
    (slurmd_timeout / SECONDS_A_REST).max(1)
}

/// Rounds of turns, until a shutdown was accepted. Between two rounds it rests so often, and looks at the history each
/// time.
pub(crate) fn turn_daemons<R: Wait, D: Desk, C: Clock>(
    rt: &R,
    alloc: Global,
    desk: &mut D,
    clock: &mut C,
    rests: u64,
    daemons: &mut [DaemonState],
)
    ensures goes_on { GoesOn (D.sight desk.old) (D.sight desk.new) }
    ensures shut { (present (history_of (D.sight desk.new))).is_shut ≡ true }
{
    for _ in rt.forever() {
        if desk.refresh() {
            return;
        }
        let now = clock.now();
        turn_all(alloc, desk, now, daemons);
        if rest(desk, clock, rests) {
            return;
        }
    }
    unreachable!()
}
