//! The planner's part of a server: its turns, one after another.

ghost use Rattle.std.specs.Prelude.{◌≡◌, true, length, if◌then◌else◌, Some};
ghost use Rattle.ctl_desk.specs.Desk.{GoesOn, history_of, seen};
ghost use Rattle.ctl_desk.specs.History.{present};
ghost use Rattle.ctl_server.specs.Due;

use crate::planning::planner_turn;
use ctl_desk::desk::Desk;
use resource_profile::start;
use slurm_net::{Clock, Gate};
use std::alloc::Global;
use std::sync::Wait;

// The last turn that the planner made.
#[derive(Clone, Copy)]
struct LastTurn {
    moment: u64,
    // How many entries the desk had seen after it.
    seen: u64,
}

// Whether a turn is due: so many seconds have passed since the last one, or entries have come.
fn is_due(last: Option<LastTurn>, now: u64, interval: u32, seen: u64) -> bool
    ensures { result ≡ Due.is_due last now interval seen }
{
    match last {
        Some(last) => seen > last.seen || now.saturating_sub(last.moment) >= interval as u64,
        None => true,
    }
}

// Makes a turn; one for which memory was wanting is passed over.
fn make_turn<D: Desk, G: Gate>(alloc: Global, desk: &mut D, now: u64, gate: &mut G) -> LastTurn
    ensures goes_on { GoesOn (D.sight desk.old) (D.sight desk.new) }
    ensures moment { result.moment ≡ now }
    ensures seen { result.seen ≡ length (seen (D.sight desk.new)) }
{
    let mut outside = start();
    let mut inside = start();
    let _ = planner_turn(alloc, desk, now, gate, &mut outside, &mut inside);
    LastTurn {
        moment: now,
        seen: desk.seen_len(),
    }
}

// Makes a turn where one is due, and tells the last one.
#[tactic(auto, using(crate::proofs::Counting::goes_nowhere))]
fn turn_if_due<D: Desk, G: Gate>(
    alloc: Global,
    desk: &mut D,
    now: u64,
    interval: u32,
    last: Option<LastTurn>,
    gate: &mut G,
) -> Option<LastTurn>
    ensures goes_on { GoesOn (D.sight desk.old) (D.sight desk.new) }
    ensures made { result ≡ (if Due.is_due last now interval (length (seen (D.sight desk.old)))
        then Some (record { moment = now; seen = length (seen (D.sight desk.new)) }) else last) }
{
    if is_due(last, now, interval, desk.seen_len()) {
        return Some(make_turn(alloc, desk, now, gate));
    }
    last
}

/// The planner's part of a server: it makes a turn whenever `interval` seconds have passed since its last one, or the
/// desk has seen entries come since then, and rests in between, until a shutdown was accepted. A turn for which memory
/// was wanting is passed over. bf_interval in slurm.conf(5).
#[tactic(auto, using(crate::proofs::Counting::goes_nowhere))]
pub fn planner_part<R: Wait, D: Desk, C: Clock, G: Gate>(
    rt: &R,
    alloc: Global,
    desk: &mut D,
    clock: &mut C,
    interval: u32,
    gate: &mut G,
)
    ensures goes_on { GoesOn (D.sight desk.old) (D.sight desk.new) }
    ensures shut { (present (history_of (D.sight desk.new))).is_shut ≡ true }
{
    let mut last = None;
    for _ in rt.forever() {
        if desk.refresh() {
            return;
        }
        let now = clock.now();
        last = turn_if_due(alloc, desk, now, interval, last, gate);
        clock.rest();
    }
    unreachable!()
}
