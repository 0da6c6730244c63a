//! All that is handed in for a trace.

ghost use Rattle.std.specs.Prelude.{◌≡◌, ◌+◌, ◌++◌, IfOk, OnOk, IsPermutation};
ghost use Rattle.std.specs.List.Sorted.{IsSortedBy};
ghost use Rattle.std.specs.Ordering.{is_lt};
ghost use Rattle.trace_text.specs.Handing.{all_handed, all_left, goes_before, handed, left, submission_of};

use crate::TraceJob;
use crate::desc::submission_of;
use crate::submission::{LeftOutJob, Submission, TakenNames};
use small_texts::memory_error::Memory;
use std::alloc::Global;
use std::cmp::Ordering;

/// What is handed in for a trace, and what is left out of it (own).
#[derive(Debug, Drop)]
pub struct ReplayPlan {
    /// By their moments, and at one moment by their places in the trace.
    pub submissions: Vec<Submission>,
    /// In the order of the trace.
    pub left_out: Vec<LeftOutJob>,
}

// Which of two submissions goes first.
fn compare(one: &Submission, other: &Submission) -> Ordering
    ensures { is_lt result ≡ goes_before one.now other.now }
{
    match one.moment.get().cmp(&other.moment.get()) {
        Ordering::Equal => one.place.cmp(&other.place),
        order => order,
    }
}

fn sort(submissions: &mut Vec<Submission>)
    ensures moved { IsPermutation submissions.old.items submissions.new.items }
    ensures sorted { IsSortedBy goes_before submissions.new.items }
{
    submissions.sort_unstable_by(|one, other| compare(one, other));
}

// Takes the job at a place.
fn take(
    alloc: Global,
    taken: TakenNames,
    place: usize,
    job: &TraceJob,
    plan: &mut ReplayPlan,
) -> Result<(), Memory>
    ensures submissions { OnOk result (plan.new.submissions.items
        ≡ plan.old.submissions.items ++ handed (submission_of taken place job.now)) }
    ensures left_out { OnOk result (plan.new.left_out.items
        ≡ plan.old.left_out.items ++ left place (submission_of taken place job.now)) }
{
    match submission_of(alloc, taken, place, job)? {
        Ok(submission) => plan.submissions.push(submission)?,
        Err(reason) => plan.left_out.push(LeftOutJob { place, reason })?,
    }
    Ok(())
}

// All jobs, in the order of the trace.
#[tactic(auto, using(crate::proofs::Taking::taking))]
fn take_all(alloc: Global, taken: TakenNames, jobs: &[TraceJob]) -> Result<ReplayPlan, Memory>
    ensures submissions { IfOk result (λ plan. plan.submissions.items ≡ all_handed taken 0 jobs.now) }
    ensures left_out { IfOk result (λ plan. plan.left_out.items ≡ all_left taken 0 jobs.now) }
{
    let mut plan = ReplayPlan {
        submissions: Vec::new(alloc),
        left_out: Vec::new(alloc),
    };
    for (place, job) in jobs.iter().enumerate() {
        take(alloc, taken, place, job, &mut plan)?;
    }
    Ok(plan)
}

/// What is handed in for the jobs of a trace, by their moments, and which jobs are left out. n log n in the jobs.
pub fn plan_replay(
    alloc: Global,
    taken: TakenNames,
    jobs: &[TraceJob],
) -> Result<ReplayPlan, Memory>
    ensures submissions { IfOk result (λ plan. IsPermutation (all_handed taken 0 jobs.now) plan.submissions.items) }
    ensures sorted { IfOk result (λ plan. IsSortedBy goes_before plan.submissions.items) }
    ensures left_out { IfOk result (λ plan. plan.left_out.items ≡ all_left taken 0 jobs.now) }
{
    let mut plan = take_all(alloc, taken, jobs)?;
    sort(&mut plan.submissions);
    Ok(plan)
}
