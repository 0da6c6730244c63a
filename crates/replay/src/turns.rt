//! The turns of the daemons.

ghost use Rattle.std.specs.Prelude.{◌≡◌, ◌+◌, ◌<◌, ◌≤◌, ◌^◌, All, OnOk, if◌then◌else◌};
ghost use Rattle.std.specs.List.{list_any};
ghost use Rattle.ctl_desk.specs.Desk.{state_of};
ghost use Rattle.node_daemon.specs.Daemon.{is_among};
ghost use Rattle.replay.specs.declared.played.Played.{Played};
ghost use Rattle.replay.specs.declared.played.Run.{Run};
ghost use Rattle.replay.specs.Replay.{IsFew, has_ended, played_behind_round, played_behind_several, played_behind_turn, state_behind_round, state_behind_several, state_behind_turn, turns_of};

use crate::asking::keeps_history;
use crate::played::{Played, Run, has_ended, is_among, note_launches, runs_behind};
use ctl_desk::entry::Answer;
use ctl_desk::laws::answers_follow_at_a_desk_of_its_own;
use ctl_desk::own_desk::OwnDesk;
use node_daemon::daemon_turn;
use request_data::report::Start;
use small_texts::memory_error::Memory;
use std::alloc::Global;

/// Who has turns in a round.
#[derive(Clone, Copy)]
pub(crate) enum Round {
    /// Each daemon has so many.
    Each(u8),
    /// Those on whose node something ends by itself have one.
    Ending,
    /// Those that run what has ended elsewhere have two.
    Others,
    /// Those that were called have one.
    Called,
}

// Lets go of an answer.
fn let_go(_answer: Answer) {}

// One daemon's turn.
fn turn(alloc: Global, desk: &mut OwnDesk, now: u64, one: &mut Played) -> Result<(), Memory>
    requires { one.old.daemon.number + 1 < 2 ^ 64 }
    ensures state { OnOk result (state_of desk.new ≡ state_behind_turn now (state_of desk.old) one.old) }
    ensures played { OnOk result (one.new ≡ played_behind_turn now (state_of desk.old) one.old) }
{
    answers_follow_at_a_desk_of_its_own();
    keeps_history(desk);
    let answer = daemon_turn(alloc, desk, now, &mut one.daemon)?;
    let runs = runs_behind(alloc, now, &one.runs, &answer.reply)?;
    note_launches(alloc, now, &mut one.launched, &answer.reply)?;
    one.runs = runs;
    let_go(answer);
    Ok(())
}

// So many turns of one daemon.
fn turns(
    alloc: Global,
    desk: &mut OwnDesk,
    now: u64,
    count: u8,
    one: &mut Played,
) -> Result<(), Memory>
    requires { one.old.daemon.number + count < 2 ^ 64 }
    ensures state { OnOk result (state_of desk.new ≡ state_behind_several count now (state_of desk.old) one.old) }
    ensures played { OnOk result (one.new ≡ played_behind_several count now (state_of desk.old) one.old) }
{
    for _ in 0..count {
        turn(alloc, desk, now, one)?;
    }
    Ok(())
}

fn is_any_among(ended: &[Start], runs: &[Run]) -> bool
    ensures { result ≡ list_any (λ (run : Run). is_among ended.now run.start) runs.now }
{
    runs.iter().any(|run| is_among(ended, &run.start))
}

fn is_any_ended(now: u64, runs: &[Run]) -> bool
    ensures { result ≡ list_any (has_ended now) runs.now }
{
    runs.iter().any(|run| has_ended(now, run))
}

// The turns of a daemon where something ends by itself.
fn turns_where_ended(now: u64, runs: &[Run]) -> u8
    ensures { result ≡ (if list_any (has_ended now) runs.now then 1 else 0) }
{
    if is_any_ended(now, runs) { 1 } else { 0 }
}

// The turns of a daemon that may run what has ended elsewhere.
fn turns_where_left(ended: &[Start], runs: &[Run]) -> u8
    ensures { result ≡ (if list_any (λ (run : Run). is_among ended.now run.start) runs.now then 2 else 0) }
{
    if is_any_among(ended, runs) { 2 } else { 0 }
}

// The turns of a daemon that may be called.
fn turns_where_called(called: bool) -> u8
    ensures { result ≡ (if called then 1 else 0) }
{
    if called { 1 } else { 0 }
}

// How many turns a daemon has in a round.
fn turns_of(round: Round, now: u64, ended: &[Start], one: &Played) -> u8
    ensures { result ≡ turns_of round now ended.now one.now }
{
    match round {
        Round::Each(count) => count,
        Round::Ending => turns_where_ended(now, one.runs.as_slice()),
        Round::Others => turns_where_left(ended, one.runs.as_slice()),
        Round::Called => turns_where_called(one.called),
    }
}

/// A round: the daemons that have turns in it have them, one daemon after the other.
pub(crate) fn turn_all(
    alloc: Global,
    desk: &mut OwnDesk,
    now: u64,
    round: Round,
    ended: &[Start],
    played: &mut [Played],
) -> Result<(), Memory>
    requires few { IsFew round }
    requires room { All (λ (one : Played). one.daemon.number + 2 < 2 ^ 64) played.old }
    ensures state { OnOk result (state_of desk.new ≡ state_behind_round round now ended.now (state_of desk.old) played.old) }
    ensures played { OnOk result (played.new ≡ played_behind_round round now ended.now (state_of desk.old) played.old) }
{
    for one in played.iter_mut() {
        let count = turns_of(round, now, ended, one);
        turns(alloc, desk, now, count, one)?;
    }
    Ok(())
}
