//! What is due is handed in.

ghost use Rattle.std.specs.Prelude.{◌≡◌, List, drop, IfOk, OnOk};
ghost use Rattle.request_data.specs.declared.request.Request.TheVariants.{Submit};
ghost use Rattle.ctl_desk.specs.Desk.{state_of};
ghost use Rattle.replay.specs.declared.played.Played.{Played};
ghost use Rattle.replay.specs.Replay.{standing, with_due, with_one};

use crate::asking::ask;
use ctl_desk::own_desk::OwnDesk;
use reply_data::reply::Reply;
use request_data::boxed::Boxed;
use request_data::request::Request;
use small_texts::memory_error::Memory;
use std::alloc::Global;
use trace_text::Submission;

/// What is kept of a replay beside the desk and the daemons.
#[derive(Drop)]
pub struct Course {
    /// What the users were told whose jobs were handed in.
    pub replies: Vec<Reply>,
    /// The moment of the last event.
    pub moment: u64,
    /// Whether the last pass started or planned something.
    pub busy: bool,
    /// When all daemons report again.
    pub round_at: u64,
}

// What is asked to hand a submission in.
fn request_of(alloc: Global, submission: &Submission) -> Result<Request, Memory>
    ensures { IfOk result (λ request. request ≡ Submit submission.now.desc) }
{
    let desc = submission.desc.copy()?;
    Ok(Request::Submit(Boxed::new(alloc, desc)?))
}

// Hands one submission in.
fn hand_in_one(
    desk: &mut OwnDesk,
    now: u64,
    submission: &Submission,
    course: &mut Course,
) -> Result<(), Memory>
    ensures { OnOk result ((played : List Played) → standing (state_of desk.new) played course.new
        ≡ with_one now (standing (state_of desk.old) played course.old) submission.now) }
{
    let request = request_of(*course.replies.allocator(), submission)?;
    let reply = ask(desk, now, &submission.user, request)?;
    course.replies.push(reply)?;
    Ok(())
}

/// What is behind so many of them.
pub(crate) fn rest_of(submissions: &[Submission], count: usize) -> &[Submission]
    ensures { result.now ≡ drop count submissions.now }
{
    if count <= submissions.len() {
        &submissions[count..]
    } else {
        &[]
    }
}

/// Hands in what is due, in order.
pub(crate) fn hand_in(
    desk: &mut OwnDesk,
    now: u64,
    submissions: &[Submission],
    course: &mut Course,
) -> Result<(), Memory>
    ensures { OnOk result ((played : List Played) → standing (state_of desk.new) played course.new
        ≡ with_due now (standing (state_of desk.old) played course.old) submissions.now) }
{
    for submission in submissions {
        if submission.moment.get() > now {
            return Ok(());
        }
        hand_in_one(desk, now, submission, course)?;
    }
    Ok(())
}
