//! A replay, from the first submission to the last event.

ghost use Rattle.std.specs.Prelude.{◌≡◌, ◌≤◌, ◌-◌, ◌*◌, ◌||◌, ℕ, None, true, length, IfOk, IsErrOf, IsSomeAnd};
ghost use Rattle.ctl_desk.specs.Desk.{seen, sight_of, state_of};
ghost use Rattle.node_daemon.specs.Turn.{root};
ghost use Rattle.replay.specs.declared.pace.Pace.{Pace};
ghost use Rattle.replay.specs.Replay.{HaveReported, events, first_moment, jobs_asked, leads_to, may_rest, most_events, replayed, standing, told};
ghost use Rattle.replay.specs.Resting.{Stopped};

use crate::asking::ask_as_root;
use crate::event::{is_over, make_event};
use crate::handing::Course;
use crate::nodes::start_daemons;
use crate::pace::Pace;
use crate::played::Played;
use ctl_desk::desk::Desk;
use ctl_desk::own_desk::OwnDesk;
use reply_data::reply::Reply;
use request_data::query::Query;
use request_data::request::Request;
use resource_profile::{Plain, Steps};
use small_texts::memory_error;
use small_texts::memory_error::Memory;
use std::alloc::Global;
use std::marker::Model;
use trace_text::Submission;

// The most events of a replay.
const MOST_EVENTS: u32 = 1_000_000_000;

/// Why a replay has no end.
#[derive(Clone, Copy, Debug, PartialEq, Eq)]
pub enum ReplayRefusal {
    /// It wasn't over behind the last event.
    Spent,
    Memory,
}

impl From<memory_error::Memory> for ReplayRefusal {
    ghost use Rattle.std.specs.Prelude.{◌≡◌};
    ghost use Rattle.replay.specs.declared.replaying.ReplayRefusal.TheVariants as refusal;

    ghost from_gives = { λ _ e. e ≡ refusal.Memory };

    fn from(_error: memory_error::Memory) -> ReplayRefusal {
        ReplayRefusal::Memory
    }
}

/// What came of a replay (own).
#[derive(Drop)]
pub struct Replayed {
    /// What the users were told, for each submission in their order.
    pub replies: Vec<Reply>,
    /// The records of the jobs behind the last event.
    pub shown: Reply,
    /// The moment of the last event.
    pub moment: u64,
    /// The daemons of the nodes, in the order in which the controller shows the nodes, with all that each launched.
    pub played: Vec<Played>,
}

/// When a replay rests before it is over (own): behind the first event at this moment or later, or behind which the
/// history has so many entries.
#[derive(Clone, Copy)]
pub struct Rest {
    pub moment: u64,
    pub entries: u64,
}

/// A replay under way (own). It may go on at another desk than the one where it rested, if the controller stands there as it
/// did.
#[derive(Drop)]
pub struct Replaying {
    played: Vec<Played>,
    course: Course,
    // How many events are left before it is given up.
    left: u32,
    over: bool,
}

impl Model for Replaying {
    ghost use Rattle.std.specs.Prelude.{◌≤◌, ◌-◌, ◌*◌};
    ghost use Rattle.replay.specs.Replay.{HaveReported, Progress, most_events};

    ghost Value = { Progress };

    ghost view = { λ r. record { played = r.played.items; course = r.course; left = r.left; over = r.over } };

    ghost invariant = { λ r. (r.left ≤ most_events) × HaveReported (8 * (most_events - r.left)) r.played.items };
}

impl Replaying {
    ghost use Rattle.std.specs.Prelude.{◌≡◌};

    /// Whether it is over.
    pub fn is_over(&self) -> bool
        ensures { result ≡ self.now.over }
    {
        self.over
    }

    /// The moment of its last event, or of the first submission before any.
    pub fn moment(&self) -> u64
        ensures { result ≡ self.now.course.moment }
    {
        self.course.moment
    }
}

// Where events came to stop.
#[derive(Clone, Copy)]
struct Stop {
    over: bool,
    left: u32,
}

fn first_moment(submissions: &[Submission]) -> u64
    ensures { result ≡ first_moment submissions.now }
{
    match submissions {
        [] => 0,
        [submission, ..] => submission.moment.get(),
    }
}

// Whether it may rest.
fn may_rest(desk: &OwnDesk, course: &Course, rest: Option<Rest>) -> bool
    ensures { result ≡ may_rest rest course.now.moment (length (seen (sight_of desk.now))) }
{
    match rest {
        Some(rest) => rest.moment <= course.moment || rest.entries <= desk.seen_len(),
        None => false,
    }
}

// Whether it stops behind an event.
fn stops(desk: &OwnDesk, course: &Course, rest: Option<Rest>, over: bool) -> bool
    ensures { result ≡ (over || may_rest rest course.now.moment (length (seen (sight_of desk.now)))) }
{
    over || may_rest(desk, course, rest)
}

// Makes events until all is over or it may rest, but no more than are left; tells where it stopped.
fn make_events(
    alloc: Global,
    desk: &mut OwnDesk,
    steps: &mut Steps<Plain>,
    pace: Pace,
    submissions: &[Submission],
    rest: Option<Rest>,
    left: u32,
    played: &mut [Played],
    course: &mut Course,
) -> Result<Option<Stop>, Memory>
    requires few { left ≤ most_events }
    requires reported { HaveReported (8 * (most_events - left)) played.old }
    ensures { IfOk result (Stopped pace submissions.now rest (events left pace submissions.now (standing (state_of desk.old) played.old course.old))
        (state_of desk.new) (length (seen (sight_of desk.new))) played.new course.new) }
{
    for count in 0..left {
        make_event(alloc, desk, steps, pace, submissions, played, course)?;
        let over = is_over(submissions, played, course);
        if stops(desk, course, rest, over) {
            let left = left - count - 1;
            return Ok(Some(Stop { over, left }));
        }
    }
    Ok(None)
}

/// Begins a replay, before its first event: starts the daemons of the cluster's nodes.
pub fn begin(
    alloc: Global,
    submissions: &[Submission],
    desk: &mut OwnDesk,
) -> Result<Replaying, Memory>
    ensures { IfOk result (λ replaying. (pace : Pace) → leads_to pace submissions.now (state_of desk.new) replaying
        ≡ replayed pace submissions.now (state_of desk.old)) }
{
    let now = first_moment(submissions);
    let played = start_daemons(alloc, desk, now)?;
    Ok(Replaying {
        played,
        course: Course {
            replies: Vec::new(alloc),
            moment: now,
            busy: false,
            round_at: now,
        },
        left: MOST_EVENTS,
        over: false,
    })
}

/// Goes on with a replay until it is over or may rest. It leads to the same end as before, and needn't rest where it may
/// not.
#[tactic(auto, unfolding(crate::specs::Replay::leads_to))]
pub fn go_on(
    alloc: Global,
    pace: Pace,
    submissions: &[Submission],
    rest: Option<Rest>,
    desk: &mut OwnDesk,
    steps: &mut Steps<Plain>,
    replaying: Replaying,
) -> Result<Replaying, ReplayRefusal>
    ensures leads { IfOk result (λ after. leads_to pace submissions.now (state_of desk.new) after
        ≡ leads_to pace submissions.now (state_of desk.old) replaying) }
    ensures rests { IfOk result (λ after.
        (after.over || may_rest rest after.course.moment (length (seen (sight_of desk.new)))) ≡ true) }
    ensures spent { IsErrOf result ReplayRefusal.Spent → leads_to pace submissions.now (state_of desk.old) replaying ≡ None }
{
    if replaying.over {
        return Ok(replaying);
    }
    let Replaying {
        mut played,
        mut course,
        left,
        ..
    } = replaying;
    let stop = make_events(
        alloc,
        desk,
        steps,
        pace,
        submissions,
        rest,
        left,
        played.as_mut_slice(),
        &mut course,
    )?;
    match stop {
        Some(stop) => Ok(Replaying {
            played,
            course,
            left: stop.left,
            over: stop.over,
        }),
        None => Err(ReplayRefusal::Spent),
    }
}

/// What came of a replay so far, with the records of the jobs as they stand now.
pub fn finish(alloc: Global, desk: &mut OwnDesk, replaying: Replaying) -> Result<Replayed, Memory>
    ensures replies { IfOk result (λ end. end.replies ≡ replaying.course.replies) }
    ensures moment { IfOk result (λ end. end.moment ≡ replaying.course.moment) }
    ensures played { IfOk result (λ end. end.played.items ≡ replaying.played) }
    ensures shown { IfOk result (λ end. end.shown ≡ told root replaying.course.moment jobs_asked (state_of desk.old)) }
{
    let Replaying { played, course, .. } = replaying;
    let shown = ask_as_root(
        alloc,
        desk,
        course.moment,
        Request::Show(Query::ShowJob(None)),
    )?;
    Ok(Replayed {
        replies: course.replies,
        shown,
        moment: course.moment,
        played,
    })
}

/// Hands in what a plan says at a desk that nobody else asks, each at its moment, while the daemons of the cluster's nodes
/// run what they are ordered for as long as it ran. A pass is made whenever a job is handed in or ends by itself, when all
/// daemons report, and so many seconds behind the last pass at the latest. It is over when all were handed in, nothing runs, and a pass had
/// nothing to start or to plan. The submissions are in the order of their moments. The desk is left with the state of the
/// last event, and keeps what was entered, also after a refusal (own).
#[tactic(auto, unfolding(crate::specs::Replay::leads_to))]
pub fn replay(
    alloc: Global,
    pace: Pace,
    submissions: &[Submission],
    desk: &mut OwnDesk,
    steps: &mut Steps<Plain>,
) -> Result<Replayed, ReplayRefusal>
    ensures replies { IfOk result (λ end. IsSomeAnd (replayed pace submissions.now (state_of desk.old))
        (λ at. (end.replies.items ≡ at.replies) × (end.moment ≡ at.moment) × (end.played.items ≡ at.played) × (end.shown ≡ told root at.moment jobs_asked at.state))) }
    ensures spent { IsErrOf result ReplayRefusal.Spent → replayed pace submissions.now (state_of desk.old) ≡ None }
{
    let begun = begin(alloc, submissions, desk)?;
    let over = go_on(alloc, pace, submissions, None, desk, steps, begun)?;
    let end = finish(alloc, desk, over)?;
    Ok(end)
}
