//! An event of a replay.

ghost use Rattle.std.specs.Prelude.{◌≡◌, ℕ, ◌+◌, ◌<◌, ◌^◌, All, List, [], IfOk, OnOk, drop, length};
ghost use Rattle.std.specs.List.{list_any};
ghost use Rattle.request_data.specs.declared.request.Request.TheVariants.{Pass};
ghost use Rattle.ctl_state.specs.State.{State};
ghost use Rattle.ctl_desk.specs.Desk.{state_of};
ghost use Rattle.node_daemon.specs.Turn.{root};
ghost use Rattle.replay.specs.declared.handing.Course.{Course};
ghost use Rattle.replay.specs.declared.played.Played.{Played};
ghost use Rattle.replay.specs.declared.turns.Round.{Round};
ghost use Rattle.replay.specs.Replay.{HaveReported, IsFew, at_latest, cleared, event, due_round, is_busy, is_over, is_running, launched, least_end, next_moment, next_submission, passed, put_off, round_behind, standing, told, turned, with_round};

use crate::asking::pass;
use crate::calling::call;
use crate::handing::{Course, hand_in, rest_of};
use crate::pace::Pace;
use crate::played::{Played, ended_starts, is_running, least};
use crate::turns::{Round, turn_all};
use ctl_desk::own_desk::OwnDesk;
use reply_data::reply::Reply;
use resource_profile::{Plain, Steps};
use small_texts::memory_error::Memory;
use std::alloc::Global;
use trace_text::Submission;

fn is_busy(reply: &Reply) -> bool
    ensures { result ≡ is_busy reply.now }
{
    match reply {
        Reply::Passed {
            started,
            planned,
            ..
        } => *started > 0 || *planned > 0,
        _ => false,
    }
}

// Who has to be told of what a pass did.
fn round_behind(reply: &Reply) -> Round
    ensures is { result ≡ round_behind reply.now }
    ensures few { IsFew result }
{
    match reply {
        Reply::Passed { ended, started, .. } => {
            if *ended > 0 {
                Round::Each(2)
            } else if *started > 0 {
                Round::Called
            } else {
                Round::Each(0)
            }
        }
        _ => Round::Each(0),
    }
}

// A pass is made; tells who has to be told.
fn make_pass(
    alloc: Global,
    desk: &mut OwnDesk,
    now: u64,
    steps: &mut Steps<Plain>,
    course: &mut Course,
) -> Result<Round, Memory>
    ensures pass { OnOk result ((played : List Played) → standing (state_of desk.new) played course.new
        ≡ passed now (standing (state_of desk.old) played course.old)) }
    ensures round { IfOk result (λ round. round ≡ round_behind (told root now Pass (state_of desk.old))) }
    ensures few { IfOk result IsFew }
{
    let reply = pass(alloc, desk, now, steps)?;
    course.moment = now;
    course.busy = is_busy(&reply);
    Ok(round_behind(&reply))
}

// When all report again behind a round.
fn put_off(interval: u64, round: Round, now: u64, round_at: u64) -> u64
    ensures { result ≡ put_off interval round now round_at }
{
    match round {
        Round::Each(count) => {
            if count > 0 {
                now.saturating_add(interval)
            } else {
                round_at
            }
        }
        Round::Ending | Round::Others | Round::Called => round_at,
    }
}

fn note_round(interval: u64, round: Round, now: u64, course: &mut Course)
    ensures { (s : State) (played : List Played) → standing s played course.new
        ≡ with_round interval round now (standing s played course.old) }
{
    course.round_at = put_off(interval, round, now, course.round_at);
}

fn due_round(now: u64, course: &Course) -> Round
    ensures is { (s : State) (played : List Played) → result ≡ due_round now (standing s played course.now) }
    ensures few { IsFew result }
{
    if course.round_at <= now {
        Round::Each(1)
    } else {
        Round::Each(0)
    }
}

fn least_end(most: u64, played: &[Played]) -> u64
    ensures { result ≡ least_end most played.now }
{
    played
        .iter()
        .fold(most, |earliest, one| least(earliest, one.runs.as_slice()))
}

fn next_submission(most: u64, submissions: &[Submission]) -> u64
    ensures { result ≡ next_submission most submissions.now }
{
    match submissions {
        [] => most,
        [submission, ..] => most.min(submission.moment.get()),
    }
}

// Those that were not handed in yet.
fn waiting<'a>(submissions: &'a [Submission], course: &Course) -> &'a [Submission]
    ensures { result.now ≡ drop (length course.now.replies.items) submissions.now }
{
    rest_of(submissions, course.replies.len())
}

// When an event comes at the latest.
fn at_latest(pace: Pace, course: &Course) -> u64
    ensures { result ≡ at_latest pace course.now.moment course.now.round_at }
{
    course
        .round_at
        .min(course.moment.saturating_add(pace.passes))
}

// The moment of the next event.
#[tactic(auto, unfolding(crate::specs::Replay::next_moment))]
fn next_moment(pace: Pace, submissions: &[Submission], played: &[Played], course: &Course) -> u64
    ensures { (s : State) → result ≡ next_moment pace submissions.now (standing s played.now course.now) }
{
    let least = least_end(at_latest(pace, course), played);
    next_submission(least, waiting(submissions, course)).max(course.moment)
}

fn is_any_running(played: &[Played]) -> bool
    ensures { result ≡ list_any is_running played.now }
{
    played.iter().any(|one| is_running(one))
}

/// Whether nothing is left to be handed in or to end, and the last pass had nothing to start.
#[tactic(auto, unfolding(crate::specs::Replay::is_over))]
pub(crate) fn is_over(submissions: &[Submission], played: &[Played], course: &Course) -> bool
    ensures { (s : State) → result ≡ is_over submissions.now (standing s played.now course.now) }
{
    submissions.len() <= course.replies.len() && !course.busy && !is_any_running(played)
}

// What has ended is told, and the nodes are cleared of it.
fn clear(
    alloc: Global,
    desk: &mut OwnDesk,
    now: u64,
    played: &mut [Played],
    course: &Course,
) -> Result<(), Memory>
    requires { All (λ (one : Played). one.daemon.number + 8 < 2 ^ 64) played.old }
    ensures cleared { OnOk result (standing (state_of desk.new) played.new course.now
        ≡ cleared now (standing (state_of desk.old) played.old course.now)) }
    ensures room { OnOk result (All (λ (one : Played). one.daemon.number + 2 < 2 ^ 64) played.new) }
    ensures reported { OnOk result ((n : ℕ) → HaveReported n played.old → HaveReported (n + 6) played.new) }
{
    let ended = ended_starts(alloc, now, played)?;
    let starts = ended.as_slice();
    let due = due_round(now, course);
    turn_all(alloc, desk, now, Round::Ending, starts, played)?;
    turn_all(alloc, desk, now, Round::Others, starts, played)?;
    turn_all(alloc, desk, now, due, starts, played)?;
    Ok(())
}

// A pass is made, and its orders are given.
fn launch(
    alloc: Global,
    desk: &mut OwnDesk,
    now: u64,
    steps: &mut Steps<Plain>,
    pace: Pace,
    played: &mut [Played],
    course: &mut Course,
) -> Result<(), Memory>
    requires { All (λ (one : Played). one.daemon.number + 2 < 2 ^ 64) played.old }
    ensures launched { OnOk result (standing (state_of desk.new) played.new course.new
        ≡ launched pace now (standing (state_of desk.old) played.old course.old)) }
    ensures reported { OnOk result ((n : ℕ) → HaveReported n played.old → HaveReported (n + 2) played.new) }
{
    let round = make_pass(alloc, desk, now, steps, course)?;
    call(alloc, desk, now, round, played)?;
    turn_all(alloc, desk, now, round, &[], played)?;
    note_round(pace.reports, round, now, course);
    Ok(())
}

/// An event: ends are told, what is due is handed in, a pass is made, and what it started is launched. It costs a pass, the
/// reports of the daemons that have something to tell or to launch, and a look at the nodes where the pass started something;
/// the reports of all daemons where these are due, or where the pass ended something.
#[tactic(auto, unfolding(crate::specs::Replay::event))]
pub(crate) fn make_event(
    alloc: Global,
    desk: &mut OwnDesk,
    steps: &mut Steps<Plain>,
    pace: Pace,
    submissions: &[Submission],
    played: &mut [Played],
    course: &mut Course,
) -> Result<(), Memory>
    requires { All (λ (one : Played). one.daemon.number + 8 < 2 ^ 64) played.old }
    ensures event { OnOk result (standing (state_of desk.new) played.new course.new
        ≡ event pace submissions.now (standing (state_of desk.old) played.old course.old)) }
    ensures reported { OnOk result ((n : ℕ) → HaveReported n played.old → HaveReported (n + 8) played.new) }
{
    let now = next_moment(pace, submissions, played, course);
    let left = waiting(submissions, course);
    let round = due_round(now, course);
    clear(alloc, desk, now, played, course)?;
    note_round(pace.reports, round, now, course);
    hand_in(desk, now, left, course)?;
    launch(alloc, desk, now, steps, pace, played, course)?;
    Ok(())
}
