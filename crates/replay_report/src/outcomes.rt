//! The outcomes of all jobs of a trace.

ghost use Rattle.std.specs.Prelude.{◌≡◌, ◌++◌, IfOk, OnOk, option_to_list, slice_get};
ghost use Rattle.std.specs.Option.{option_copied};
ghost use Rattle.replay_report.specs.Fates.{fate_of};
ghost use Rattle.replay_report.specs.Outcomes.{all_outcomes, handed_found, handed_told, handed_with, left_with, outcome_handed, outcome_left, outcomes_handed, outcomes_left, rows_of, rows_told};

use crate::outcome::{Fate, JobOutcome, fate_of, rows_behind};
use plain_data::Plain;
use reply_data::reply::Reply;
use reply_data::view::Row;
use small_texts::memory_error::Memory;
use std::alloc::Global;
use trace_text::{LeftOutJob, ReplayPlan, Submission, TraceJob, TraceNames};

fn copy_names(names: &TraceNames) -> Result<TraceNames, Memory>
    ensures { IfOk result (λ copy. copy ≡ names.now) }
{
    Ok(TraceNames {
        user: names.user.copy()?,
        account: names.account.copy()?,
        partition: names.partition.copy()?,
        qos: names.qos.copy()?,
    })
}

#[tactic(auto, unfolding(crate::specs::Outcomes::outcome_handed))]
fn outcome_handed(job: &TraceJob, submission: &Submission, fate: Fate) -> Result<JobOutcome, Memory>
    ensures { IfOk result (λ outcome. outcome ≡ outcome_handed job.now submission.now fate) }
{
    Ok(JobOutcome {
        place: submission.place,
        id: job.id,
        times: job.times,
        names: copy_names(&job.names)?,
        processors: submission.desc.tasks.get(),
        nodes: submission.desc.min_nodes.get(),
        fate,
    })
}

#[tactic(auto, unfolding(crate::specs::Outcomes::outcome_left))]
fn outcome_left(job: &TraceJob, left: LeftOutJob) -> Result<JobOutcome, Memory>
    ensures { IfOk result (λ outcome. outcome ≡ outcome_left job.now left) }
{
    Ok(JobOutcome {
        place: left.place,
        id: job.id,
        times: job.times,
        names: copy_names(&job.names)?,
        processors: 0,
        nodes: 0,
        fate: Fate::LeftOut(left.reason),
    })
}

// The outcome of a submission whose user was told this.
fn outcome_told(
    job: &TraceJob,
    submission: &Submission,
    reply: &Reply,
    rows: &[Row],
) -> Result<JobOutcome, Memory>
    ensures { IfOk result (λ outcome. outcome
        ≡ outcome_handed job.now submission.now (fate_of reply.now rows.now)) }
{
    let fate = fate_of(reply, rows)?;
    outcome_handed(job, submission, fate)
}

// The same, where the trace has its job.
fn handed_found(
    jobs: &[TraceJob],
    submission: &Submission,
    reply: &Reply,
    rows: &[Row],
) -> Result<Option<JobOutcome>, Memory>
    ensures { IfOk result (λ outcome. outcome
        ≡ handed_found jobs.now submission.now (fate_of reply.now rows.now)) }
{
    match jobs.get(submission.place) {
        Some(job) => Ok(Some(outcome_told(job, submission, reply, rows)?)),
        None => Ok(None),
    }
}

fn push_some(outcomes: &mut Vec<JobOutcome>, outcome: Option<JobOutcome>) -> Result<(), Memory>
    ensures { OnOk result (outcomes.new.items ≡ outcomes.old.items ++ option_to_list outcome) }
{
    match outcome {
        Some(outcome) => outcomes.push(outcome)?,
        None => {}
    }
    Ok(())
}

// Takes the outcome of a submission.
fn take_handed(
    jobs: &[TraceJob],
    submission: &Submission,
    reply: &Reply,
    rows: &[Row],
    outcomes: &mut Vec<JobOutcome>,
) -> Result<(), Memory>
    ensures { OnOk result (outcomes.new.items
        ≡ outcomes.old.items ++ handed_with jobs.now submission.now (fate_of reply.now rows.now)) }
{
    let outcome = handed_found(jobs, submission, reply, rows)?;
    push_some(outcomes, outcome)
}

fn reply_at(replies: &[Reply], place: usize) -> Option<&Reply>
    ensures { option_copied result ≡ slice_get replies.now place }
{
    replies.get(place)
}

// Takes the outcome of a submission that was told this.
fn take_told(
    jobs: &[TraceJob],
    submission: &Submission,
    reply: Option<&Reply>,
    rows: &[Row],
    outcomes: &mut Vec<JobOutcome>,
) -> Result<(), Memory>
    ensures { OnOk result (outcomes.new.items
        ≡ outcomes.old.items ++ handed_told jobs.now submission.now (option_copied reply.entry) rows.now) }
{
    match reply {
        Some(reply) => take_handed(jobs, submission, reply, rows, outcomes),
        None => Ok(()),
    }
}

// What is left of the records behind that of a submission that was told this.
fn rows_told<'a>(reply: Option<&Reply>, rows: &'a [Row]) -> &'a [Row]
    ensures { result.now ≡ rows_told (option_copied reply.entry) rows.now }
{
    match reply {
        Some(reply) => rows_behind(reply, rows),
        None => rows,
    }
}

// Takes the outcomes of what was handed in.
#[tactic(auto, using(crate::proofs::Handed::handing))]
fn take_all_handed(
    jobs: &[TraceJob],
    submissions: &[Submission],
    replies: &[Reply],
    rows: &[Row],
    outcomes: &mut Vec<JobOutcome>,
) -> Result<(), Memory>
    ensures { OnOk result (outcomes.new.items
        ≡ outcomes.old.items ++ outcomes_handed jobs.now replies.now 0 submissions.now rows.now) }
{
    let mut left = rows;
    for (place, submission) in submissions.iter().enumerate() {
        let reply = reply_at(replies, place);
        take_told(jobs, submission, reply, left, outcomes)?;
        left = rows_told(reply, left);
    }
    Ok(())
}

fn left_with(jobs: &[TraceJob], left: LeftOutJob) -> Result<Option<JobOutcome>, Memory>
    ensures { IfOk result (λ outcome. outcome ≡ left_with jobs.now left) }
{
    match jobs.get(left.place) {
        Some(job) => Ok(Some(outcome_left(job, left)?)),
        None => Ok(None),
    }
}

// Takes the outcomes of what was left out.
fn take_all_left(
    jobs: &[TraceJob],
    left_out: &[LeftOutJob],
    outcomes: &mut Vec<JobOutcome>,
) -> Result<(), Memory>
    ensures { OnOk result (outcomes.new.items ≡ outcomes.old.items ++ outcomes_left jobs.now left_out.now) }
{
    for left in left_out {
        let outcome = left_with(jobs, *left)?;
        push_some(outcomes, outcome)?;
    }
    Ok(())
}

fn rows_of(reply: &Reply) -> &[Row]
    ensures { result.now ≡ rows_of reply.now }
{
    match reply {
        Reply::Shown(view) => view.rows.as_slice(),
        _ => &[],
    }
}

/// The outcome of each job of a trace, by what was told for the submissions of its plan, in their order, and by the reply to
/// "scontrol show job" at the end: first those that were handed in, in this order, then those that were left out. Linear in
/// the jobs, of which it copies the names.
pub fn outcomes_of(
    alloc: Global,
    jobs: &[TraceJob],
    plan: &ReplayPlan,
    replies: &[Reply],
    shown: &Reply,
) -> Result<Vec<JobOutcome>, Memory>
    ensures { IfOk result (λ outcomes. outcomes.items
        ≡ all_outcomes jobs.now plan.now.submissions.items plan.now.left_out.items replies.now shown.now) }
{
    let mut outcomes = Vec::with_capacity(alloc, jobs.len())?;
    let submissions = plan.submissions.as_slice();
    take_all_handed(jobs, submissions, replies, rows_of(shown), &mut outcomes)?;
    take_all_left(jobs, plan.left_out.as_slice(), &mut outcomes)?;
    Ok(outcomes)
}
